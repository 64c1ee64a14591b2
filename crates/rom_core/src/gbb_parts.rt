// The head of a GBB: its numbers, the ranges of its parts, and the faults that the head alone shows.
ghost use Rattle.std.specs.Prelude.{◌≡◌, ◌+◌, ◌≤◌, Some, None, IfOk, IfErr, OnOk};
ghost use Rattle.wire_core.specs.FirstFault.{first_fault};
ghost use Rattle.rom_core.specs.Gbb.{part_at, head_in, has_known_version, part_is_inside, hwid_is_inside, key_part_is_inside};
ghost use Rattle.rom_core.specs.Gbb.{parts_are_inside, head_lines, PartsFit};

use crate::fault::GbbFault;
use crate::layout::*;
use key_core::is_inside;
use key_core::layout::KEY_HEAD;
use wire_core::{u16_at, u32_at};

/// A range of bytes of a GBB.
#[derive(Clone, Copy, Debug)]
pub(crate) struct Part {
    /// The place of the first byte, from the start of the GBB.
    pub at: u32,
    /// The number of bytes.
    pub size: u32,
}

/// What is looked at in the head of a GBB, behind its version.
#[derive(Clone, Copy, Debug)]
pub(crate) struct GbbHead {
    /// The flags.
    pub flags: u32,
    /// The minor version.
    pub minor: u16,
    /// The range of the HWID.
    pub hwid: Part,
    /// The range of the root key.
    pub root: Part,
    /// The range of the recovery key.
    pub recovery: Part,
}

/// The head of a GBB of `size` bytes, which begins with these bytes. An error is the first of lines 2 to 4 of the table
/// whose test holds, where line 4 looks at the ranges alone.
pub(crate) fn check_head(bytes: &[u8; 128], size: u32) -> Result<GbbHead, GbbFault>
    ensures fault { IfErr result (λ fault. first_fault (head_lines size) bytes.now ≡ Some fault) }
    ensures none { OnOk result (first_fault (head_lines size) bytes.now ≡ None) }
    ensures head { IfOk result (λ head. head ≡ head_in bytes.now) }
    ensures fits { IfOk result (PartsFit size) }
{
    if !bytes.starts_with(&GBB_MAGIC) {
        return Err(GbbFault::Magic);
    }
    if !has_known_version(bytes) {
        return Err(GbbFault::Version);
    }
    let head = head_at(bytes);
    if !head.is_inside(size) {
        return Err(GbbFault::Outside);
    }
    Ok(head)
}

fn has_known_version(bytes: &[u8; 128]) -> bool
    ensures { result ≡ has_known_version bytes.now }
{
    u16_at(bytes, GBB_MAJOR as usize) == GBB_MAJOR_VERSION
        && u16_at(bytes, GBB_MINOR as usize) >= GBB_LEAST_MINOR
        && u32_at(bytes, GBB_HEAD_SIZE as usize) >= GBB_HEAD
}

fn head_at(bytes: &[u8; 128]) -> GbbHead
    ensures { result ≡ head_in bytes.now }
{
    GbbHead {
        flags: u32_at(bytes, GBB_FLAGS as usize),
        minor: u16_at(bytes, GBB_MINOR as usize),
        hwid: part_at(bytes, GBB_HWID),
        root: part_at(bytes, GBB_ROOT_KEY),
        recovery: part_at(bytes, GBB_RECOVERY_KEY),
    }
}

// The range of which the two numbers stand at `place`.
fn part_at(bytes: &[u8; 128], place: u32) -> Part
    requires { place + 8 ≤ 128 }
    ensures { result ≡ part_at bytes.now place }
{
    Part {
        at: u32_at(bytes, place as usize),
        size: u32_at(bytes, place as usize + 4),
    }
}

impl GbbHead {
    // Whether the ranges lie behind the head in a GBB of `size` bytes, and have sizes that a HWID and packed keys have.
    fn is_inside(&self, size: u32) -> bool
        ensures same { result ≡ parts_are_inside size self.now }
    {
        self.hwid.is_hwid_inside(size)
            && self.root.is_key_inside(size)
            && self.recovery.is_key_inside(size)
    }
}

impl Part {
    // Whether the range lies behind the head in a GBB of `size` bytes.
    fn is_inside(&self, size: u32) -> bool
        ensures { result ≡ part_is_inside size self.now }
    {
        is_inside(size, 0, GBB_HEAD, self.at, self.size)
    }

    // Whether it does, and has a size that a HWID has.
    fn is_hwid_inside(&self, size: u32) -> bool
        ensures { result ≡ hwid_is_inside size self.now }
    {
        self.is_inside(size) && self.size >= 1 && self.size <= LARGEST_HWID
    }

    // Whether it does, and has room for a packed key.
    fn is_key_inside(&self, size: u32) -> bool
        ensures { result ≡ key_part_is_inside size self.now }
    {
        self.is_inside(size) && self.size >= KEY_HEAD
    }
}
