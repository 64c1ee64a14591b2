// A firmware preamble: the checks of its bytes, and its parts.
ghost use Rattle.std.specs.Prelude.{◌≡◌, Some, None, IfOk, IfErr, OnOk};
ghost use Rattle.wire_core.specs.FirstFault.{first_fault};
ghost use Rattle.preamble_core.specs.Firmware.{FwPreamble, firmware_lines, firmware_preamble_in, FwPreambleFits, FwPreambleIsSigned};

use crate::common::{CommonView, PreambleKind, check_head};
use crate::fault::{FwPreambleFault, firmware_line};
use crate::layout::*;
use key_core::{KeyView, key_at};
use std::marker::Model;
use wire_core::u32_at;

/// A firmware preamble in its buffer: contracts see its numbers and the bytes of its parts.
#[derive(Debug, Drop)]
pub struct FwPreambleView<'a> {
    common: CommonView<'a>,
    flags: u32,
    subkey: KeyView<'a>,
}

impl<'a> Model for FwPreambleView<'a> {
    ghost Value = { FwPreamble };

    ghost view = { λ p. record { common = p.common; flags = p.flags; subkey = p.subkey } };
}

impl FwPreambleView<'_> {
    /// The firmware preamble that the bytes begin with. An error is the first of lines 1 to 8 of the firmware preamble
    /// table whose test holds.
    pub fn check(bytes: &[u8]) -> Result<FwPreambleView<'_>, FwPreambleFault>
        ensures fault { IfErr result (λ fault. first_fault firmware_lines bytes.now ≡ Some fault) }
        ensures none { OnOk result (first_fault firmware_lines bytes.now ≡ None) }
        ensures parts { IfOk result (λ preamble. preamble ≡ firmware_preamble_in bytes.now) }
        ensures fits { IfOk result (FwPreambleFits bytes.now) }
        ensures signed { IfOk result FwPreambleIsSigned }
    {
        let head = match check_head(bytes, PreambleKind::Firmware) {
            Ok(head) => head,
            Err(fault) => return Err(firmware_line(fault)),
        };
        let subkey = key_at(bytes, FIRMWARE_SUBKEY);
        if !subkey.is_inside(head.signature.data_size) {
            return Err(FwPreambleFault::SubkeyOutside);
        }
        let common = match head.view(bytes, PreambleKind::Firmware) {
            Ok(common) => common,
            Err(fault) => return Err(firmware_line(fault)),
        };
        let flags = u32_at(bytes, FIRMWARE_FLAGS as usize);
        Ok(FwPreambleView {
            common,
            flags,
            subkey: subkey.view(bytes),
        })
    }

    /// What a kernel preamble has too.
    pub fn common(&self) -> CommonView<'_>
        ensures { result ≡ self.now.common }
    {
        self.common.reborrow()
    }

    /// The preamble's flags.
    pub fn flags(&self) -> u32
        ensures { result ≡ self.now.flags }
    {
        self.flags
    }

    /// The key that signs the kernel's keyblock, which lies in what is signed.
    pub fn subkey(&self) -> KeyView<'_>
        ensures { result ≡ self.now.subkey }
    {
        self.subkey.reborrow()
    }
}
