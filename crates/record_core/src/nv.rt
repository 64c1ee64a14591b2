// The nvdata record, which is always good: 16 bytes in form V1, 64 in form V2. The constants are both layouts, in bytes from the
// start.
ghost use Rattle.std.specs.Prelude.{◌≡◌, ◌≢◌, ◌≤◌, ◌<◌, ◌+◌, ◌^◌, IfSome, is_some, length};
ghost use Rattle.record_core.specs.Field.{field_of, greatest_value};
ghost use Rattle.record_core.specs.Nv.{IsGoodRecord, is_good_record, blank_record, with_field, form_of, crc_at, ceiling_at, ceiling_of, with_ceiling, up_record};
ghost use Rattle.record_core.specs.declared.field.NvField.{NvField};
ghost use Rattle.record_core.specs.declared.nv.NvForm.TheVariants as the_form;

use crate::field::NvField;
use crate::space::renew_crc;
use std::marker::Model;
use wire_core::{crc8, put_u32, u32_at};

const CRC_AT: usize = 15;

const V2_CRC_AT: usize = 63;

const SIGNATURE_MASK: u8 = 0xc0;

const SIGNATURE: u8 = 0x40;

const V2_SIGNATURE: u8 = 0x80;

const FIRMWARE_CEILING_AT: usize = 16;

const KERNEL_CEILING_AT: usize = 20;

/// The form of a record.
#[derive(Clone, Copy, Debug, PartialEq, Eq)]
pub enum NvForm {
    /// 16 bytes, as vboot has them.
    V1,
    /// 64 bytes, with a ceiling for each roll-forward. This form is this project's own.
    V2,
}

/// A ceiling: the version word over which a stored version does not rise.
#[derive(Clone, Copy, Debug, PartialEq, Eq)]
pub enum Ceiling {
    /// That of the firmware.
    Firmware,
    /// That of the kernel.
    Kernel,
}

// The bytes of a record in each form.
#[derive(Clone, Copy, Debug, PartialEq, Eq)]
enum NvLayout {
    V1([u8; 16]),
    V2([u8; 64]),
}

/// A good nvdata record, seen as its bytes, 16 or 64.
/// Source: vboot_reference, firmware/2lib/2nvstorage.c, for the form of 16 bytes.
#[derive(Clone, Copy, Debug, PartialEq, Eq)]
pub struct Nv {
    layout: NvLayout,
}

impl Model for Nv {
    ghost use Rattle.std.specs.Prelude.{List, ℕ};

    ghost Value = { List ℕ };

    ghost use Rattle.record_core.specs.NvLayouts.{record_in, layout_of, IsWhole, inside_back};

    ghost view = { λ nv. record_in nv.layout };

    ghost invariant = { λ nv. IsWhole nv.layout };

    ghost inverse = { λ bytes. record { layout = layout_of bytes } };

    ghost inverse_ok = { λ nv whole. inside_back nv whole };
}

// The value of a field in the bytes of a record.
fn field_in(bytes: &[u8], field: NvField) -> u8
    requires { 16 ≤ length bytes.now }
    ensures value { result ≡ field_of bytes.now field }
    ensures fits { result ≤ greatest_value field }
{
    let place = field.place();
    (bytes[place.byte] & place.mask) >> place.shift
}

fn is_good_v1(bytes: &[u8; 16]) -> bool
    ensures { result ≡ is_good_record bytes.now }
{
    bytes[0] & SIGNATURE_MASK == SIGNATURE && bytes[CRC_AT] == crc8(&bytes[..CRC_AT])
}

fn is_good_v2(bytes: &[u8; 64]) -> bool
    ensures { result ≡ is_good_record bytes.now }
{
    bytes[0] & SIGNATURE_MASK == V2_SIGNATURE && bytes[V2_CRC_AT] == crc8(&bytes[..V2_CRC_AT])
}

// Replaces the value of a field in the bytes of a record, whose last one is the checksum.
fn put_field(bytes: &mut [u8], field: NvField, value: u8)
    requires size { length bytes.old ≡ crc_at bytes.old + 1 }
    requires fits { value ≤ greatest_value field }
    ensures { bytes.new ≡ with_field bytes.old field value }
{
    let crc_at = bytes.len() - 1;
    let place = field.place();
    let kept = bytes[place.byte] & !place.mask;
    bytes[place.byte] = kept | (value << place.shift);
    bytes[crc_at] = crc8(&bytes[..crc_at]);
}

impl Nv {
    /// The record of a machine that has none: the signature and both reset bits.
    pub fn blank() -> Nv
        ensures { result ≡ blank_record }
    {
        let mut bytes = [0; 16];
        bytes[0] = 0x70;
        bytes[CRC_AT] = 0x20;
        Nv {
            layout: NvLayout::V1(bytes),
        }
    }

    /// The record in these bytes. `None` exactly where they are neither 16 nor 64, or the signature of that form or the CRC is wrong.
    pub fn from_bytes(bytes: &[u8]) -> Option<Nv>
        ensures exact { is_some result ≡ is_good_record bytes.now }
        ensures same { IfSome result (λ nv. nv ≡ bytes.now) }
    {
        if let Ok(record) = <[u8; 64]>::try_from(bytes) {
            if !is_good_v2(&record) {
                return None;
            }
            return Some(Nv {
                layout: NvLayout::V2(record),
            });
        }
        let Ok(record) = <[u8; 16]>::try_from(bytes) else {
            return None;
        };
        if !is_good_v1(&record) {
            return None;
        }
        Some(Nv {
            layout: NvLayout::V1(record),
        })
    }

    /// The bytes, 16 or 64.
    pub fn as_slice(&self) -> &[u8]
        ensures same { result.now ≡ self.now }
        ensures good { IsGoodRecord self.now }
        ensures short { length result.now ≤ 64 }
    {
        match &self.layout {
            NvLayout::V1(bytes) => bytes,
            NvLayout::V2(bytes) => bytes,
        }
    }

    /// The form.
    pub fn form(&self) -> NvForm
        ensures { result ≡ form_of self.now }
    {
        match self.layout {
            NvLayout::V1(_) => NvForm::V1,
            NvLayout::V2(_) => NvForm::V2,
        }
    }

    /// The value of a field.
    pub fn get(&self, field: NvField) -> u8
        ensures value { result ≡ field_of self.now field }
        ensures fits { result ≤ greatest_value field }
    {
        match &self.layout {
            NvLayout::V1(bytes) => field_in(bytes, field),
            NvLayout::V2(bytes) => field_in(bytes, field),
        }
    }

    /// Replaces the value of a field. The form and all bits outside the field stay, but those of the CRC.
    pub fn set(&mut self, field: NvField, value: u8)
        requires fits { value ≤ greatest_value field }
        ensures bytes { self.new ≡ with_field self.old field value }
        ensures good { IsGoodRecord self.new }
        ensures value { field_of self.new field ≡ value }
        ensures others { (other : NvField) → other ≢ field → field_of self.new other ≡ field_of self.old other }
    {
        match self.layout {
            NvLayout::V1(old) => {
                let mut bytes = old;
                put_field(&mut bytes, field, value);
                self.layout = NvLayout::V1(bytes);
            }
            NvLayout::V2(old) => {
                let mut bytes = old;
                put_field(&mut bytes, field, value);
                self.layout = NvLayout::V2(bytes);
            }
        }
    }

    /// The ceiling of a roll-forward, a version word; the greatest number in a record of form V1, which has none.
    pub fn ceiling(&self, which: Ceiling) -> u32
        ensures { result ≡ ceiling_of self.now which }
    {
        match &self.layout {
            NvLayout::V1(_) => u32::MAX,
            NvLayout::V2(bytes) => u32_at(bytes, which.place()),
        }
    }

    /// Replaces a ceiling in a record of form V2. All other bytes stay, but the CRC.
    pub fn set_ceiling(&mut self, which: Ceiling, value: u32)
        requires { form_of self.old ≡ the_form.V2 }
        ensures bytes { self.new ≡ with_ceiling self.old which value }
        ensures good { IsGoodRecord self.new }
        ensures value { ceiling_of self.new which ≡ value }
    {
        if let NvLayout::V2(old) = self.layout {
            let mut bytes = old;
            put_u32(&mut bytes, which.place(), value);
            renew_crc(&mut bytes, V2_CRC_AT);
            self.layout = NvLayout::V2(bytes);
        }
    }

    /// Brings the record into form V2: its fields stay, and no ceiling stands. A record of that form stays.
    pub fn up(&mut self)
        ensures bytes { self.new ≡ up_record self.old }
        ensures good { IsGoodRecord self.new }
        ensures form { form_of self.new ≡ the_form.V2 }
    {
        if let NvLayout::V1(old) = self.layout {
            self.layout = NvLayout::V2(raised(&old));
        }
    }
}

impl Ceiling {
    // The place of a ceiling in a record of form V2.
    fn place(self) -> usize
        ensures place { result ≡ ceiling_at self }
        ensures inside { result ≤ 20 }
        ensures behind { 16 ≤ result }
    {
        match self {
            Ceiling::Firmware => FIRMWARE_CEILING_AT,
            Ceiling::Kernel => KERNEL_CEILING_AT,
        }
    }
}

// A record of 16 bytes in form V2, without a ceiling.
fn raised(old: &[u8; 16]) -> [u8; 64]
    ensures { result ≡ up_record old.now }
{
    let mut bytes = [0; 64];
    bytes[..CRC_AT].copy_from_slice(&old[..CRC_AT]);
    bytes[0] = bytes[0] & !SIGNATURE_MASK | V2_SIGNATURE;
    bytes[FIRMWARE_CEILING_AT..FIRMWARE_CEILING_AT + 8].copy_from_slice(&[0xff; 8]);
    renew_crc(&mut bytes, V2_CRC_AT);
    bytes
}
