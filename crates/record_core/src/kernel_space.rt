// The kernel space of the TPM, which is always good: 13 bytes in the form before version 1.0, and 40 bytes from then on. The
// constants are both layouts, in bytes from the start, the versions of the structure, and the uid of the older form: `LWRG` in the
// order of the bytes.
ghost use Rattle.std.specs.Prelude.{◌≡◌, ◌≤◌, ◌++◌, Some, IsTrue, length, take, drop};
ghost use Rattle.record_core.specs.Space.{IsGoodKernel, good_bytes, is_v1, kernel_fault, kernel_versions, stored_kernel_version};
ghost use Rattle.record_core.specs.Space.{with_kernel_versions, ec_hash_of, with_ec_hash, migrated_space, fresh_v1 as fresh_space};

use crate::space::{SpaceFault, crc_behind, renew_crc, renew_front_crc};
use std::marker::Model;
use wire_core::{crc8, put_u32, u32_at};

const STRUCT_VERSION_AT: usize = 0;

const UID_AT: usize = 1;

const VERSIONS_AT: usize = 5;

const CRC_AT: usize = 12;

const LEAST_STRUCT_VERSION: u8 = 0x02;

const GREATEST_STRUCT_VERSION: u8 = 0x0f;

const UID: u32 = 0x4752_574c;

const V1_SIZE_AT: usize = 1;

const V1_CRC_AT: usize = 2;

const V1_VERSIONS_AT: usize = 4;

const V1_HASH_AT: usize = 8;

const V1_SIZE: u8 = 40;

const V1_LEAST_STRUCT_VERSION: u8 = 0x10;

const V1_GREATEST_STRUCT_VERSION: u8 = 0x1f;

// The bytes of a space in each form.
#[derive(Clone, Copy, Debug, PartialEq, Eq)]
enum KernelLayout {
    // Before version 1.0.
    V0([u8; 13]),
    // From version 1.0 on.
    V1([u8; 40]),
}

/// A good kernel space, seen as its bytes: 13 before version 1.0, 40 from then on.
/// Source: vboot_reference, firmware/2lib/2secdata_kernel.c.
#[derive(Clone, Copy, Debug, PartialEq, Eq)]
pub struct KernelSpace {
    layout: KernelLayout,
}

impl Model for KernelSpace {
    ghost use Rattle.std.specs.Prelude.{List, ℕ};

    ghost Value = { List ℕ };

    ghost use Rattle.record_core.specs.KernelLayouts.{bytes_in, layout_of, IsWhole, inside_back};

    ghost view = { λ space. bytes_in space.layout };

    ghost invariant = { λ space. IsWhole space.layout };

    ghost inverse = { λ bytes. record { layout = layout_of bytes } };

    ghost inverse_ok = { λ space whole. inside_back space whole };
}

// The first fault of a space of 13 bytes.
fn fault_of_v0(space: &[u8; 13]) -> Option<SpaceFault>
    ensures { result ≡ kernel_fault space.now }
{
    if space[CRC_AT] != crc8(&space[..CRC_AT]) {
        return Some(SpaceFault::Crc);
    }
    let version = space[STRUCT_VERSION_AT];
    if version < LEAST_STRUCT_VERSION || GREATEST_STRUCT_VERSION < version {
        return Some(SpaceFault::Version);
    }
    if u32_at(space, UID_AT) != UID {
        return Some(SpaceFault::Uid);
    }
    None
}

// The first fault of a space of 40 bytes.
fn fault_of_v1(space: &[u8; 40]) -> Option<SpaceFault>
    ensures { result ≡ kernel_fault space.now }
{
    if space[V1_SIZE_AT] != V1_SIZE {
        return Some(SpaceFault::Size);
    }
    if space[V1_CRC_AT] != crc_behind(space, V1_CRC_AT) {
        return Some(SpaceFault::Crc);
    }
    let version = space[STRUCT_VERSION_AT];
    if version < V1_LEAST_STRUCT_VERSION || V1_GREATEST_STRUCT_VERSION < version {
        return Some(SpaceFault::Version);
    }
    None
}

// The space of version 1.0 with these versions, no flags and a hash of zeros.
fn fresh_v1(versions: u32) -> [u8; 40]
    ensures bytes { result ≡ fresh_space versions }
{
    let mut bytes = [0; 40];
    bytes[STRUCT_VERSION_AT] = V1_LEAST_STRUCT_VERSION;
    bytes[V1_SIZE_AT] = V1_SIZE;
    put_u32(&mut bytes, V1_VERSIONS_AT, versions);
    renew_front_crc(&mut bytes, V1_CRC_AT);
    bytes
}

// Puts a hash into the last bytes of a space.
fn put_hash(bytes: &mut [u8], hash: &[u8; 32])
    requires { length bytes.old ≡ 40 }
    ensures { bytes.new ≡ take 8 bytes.old ++ hash.now ++ drop 40 bytes.old }
{
    bytes[V1_HASH_AT..V1_HASH_AT + 32].copy_from_slice(hash);
}

// A space of 40 bytes with another hash.
fn hashed(space: &[u8; 40], hash: &[u8; 32]) -> [u8; 40]
    ensures bytes { result ≡ with_ec_hash space.now hash.now }
{
    let mut bytes = *space;
    put_hash(&mut bytes, hash);
    renew_front_crc(&mut bytes, V1_CRC_AT);
    bytes
}

impl KernelSpace {
    /// The space in these bytes, or the first fault: `Size` where they are neither 13 nor 40, or 40 whose second one is not 40;
    /// `Crc`; `Version`, by the form; and in the form of 13 bytes alone `Uid`.
    pub fn from_bytes(bytes: &[u8]) -> Result<KernelSpace, SpaceFault>
        ensures { result ≡ good_bytes (kernel_fault bytes.now) bytes.now }
    {
        if let Ok(space) = <[u8; 40]>::try_from(bytes) {
            return match fault_of_v1(&space) {
                Some(fault) => Err(fault),
                None => Ok(KernelSpace {
                    layout: KernelLayout::V1(space),
                }),
            };
        }
        let Ok(space) = <[u8; 13]>::try_from(bytes) else {
            return Err(SpaceFault::Size);
        };
        match fault_of_v0(&space) {
            Some(fault) => Err(fault),
            None => Ok(KernelSpace {
                layout: KernelLayout::V0(space),
            }),
        }
    }

    /// The bytes, 13 or 40.
    pub fn as_slice(&self) -> &[u8]
        ensures same { result.now ≡ self.now }
        ensures short { length result.now ≤ 40 }
        ensures good { IsGoodKernel self.now }
    {
        match &self.layout {
            KernelLayout::V0(bytes) => bytes,
            KernelLayout::V1(bytes) => bytes,
        }
    }

    /// Whether the space is in the form from version 1.0 on.
    pub fn is_v1(&self) -> bool
        ensures { result ≡ is_v1 self.now }
    {
        match self.layout {
            KernelLayout::V0(_) => false,
            KernelLayout::V1(_) => true,
        }
    }

    /// The version word: the key's version in the upper 16 bits, the kernel's in the lower.
    pub fn versions(&self) -> u32
        ensures versions { result ≡ kernel_versions self.now }
        ensures stored { stored_kernel_version self.now ≡ Some result }
    {
        match &self.layout {
            KernelLayout::V0(bytes) => u32_at(bytes, VERSIONS_AT),
            KernelLayout::V1(bytes) => u32_at(bytes, V1_VERSIONS_AT),
        }
    }

    /// Replaces the version word. The form and all other bytes stay, but the CRC.
    pub fn set_versions(&mut self, versions: u32)
        ensures bytes { self.new ≡ with_kernel_versions self.old versions }
        ensures good { IsGoodKernel self.new }
        ensures versions { kernel_versions self.new ≡ versions }
        ensures stored { stored_kernel_version self.new ≡ Some versions }
    {
        match self.layout {
            KernelLayout::V0(old) => {
                let mut bytes = old;
                put_u32(&mut bytes, VERSIONS_AT, versions);
                renew_crc(&mut bytes, CRC_AT);
                self.layout = KernelLayout::V0(bytes);
            }
            KernelLayout::V1(old) => {
                let mut bytes = old;
                put_u32(&mut bytes, V1_VERSIONS_AT, versions);
                renew_front_crc(&mut bytes, V1_CRC_AT);
                self.layout = KernelLayout::V1(bytes);
            }
        }
    }

    /// The hash of the firmware of the embedded controller, or none in the form before version 1.0.
    pub fn ec_hash(&self) -> Option<[u8; 32]>
        ensures { result ≡ ec_hash_of self.now }
    {
        match &self.layout {
            KernelLayout::V0(_) => None,
            KernelLayout::V1(bytes) => {
                let mut hash = [0; 32];
                hash.copy_from_slice(&bytes[V1_HASH_AT..V1_HASH_AT + 32]);
                Some(hash)
            }
        }
    }

    /// Replaces the hash of the firmware of the embedded controller. All other bytes stay, but the CRC.
    pub fn set_ec_hash(&mut self, hash: [u8; 32])
        requires { IsTrue (is_v1 self.old) }
        ensures bytes { self.new ≡ with_ec_hash self.old hash }
        ensures good { IsGoodKernel self.new }
        ensures versions { kernel_versions self.new ≡ kernel_versions self.old }
    {
        if let KernelLayout::V1(old) = self.layout {
            self.layout = KernelLayout::V1(hashed(&old, &hash));
        }
    }

    /// The space in the form of version 1.0, with the same versions: itself where it is in that form, else with no flags and a
    /// hash of zeros.
    pub fn migrated(&self) -> KernelSpace
        ensures bytes { result ≡ migrated_space self.now }
        ensures good { IsGoodKernel result }
        ensures versions { kernel_versions result ≡ kernel_versions self.now }
        ensures stored { stored_kernel_version result ≡ stored_kernel_version self.now }
    {
        match &self.layout {
            KernelLayout::V0(old) => KernelSpace {
                layout: KernelLayout::V1(fresh_v1(u32_at(old, VERSIONS_AT))),
            },
            KernelLayout::V1(_) => *self,
        }
    }
}
