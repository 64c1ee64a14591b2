// Reading the GBB of a flash: its HWID, its root key and its recovery key.
ghost use Rattle.std.specs.Prelude.{◌≡◌, ◌+◌, ◌≤◌, length, replicate, IsTrue, IfOk, OnOk, is_err};
ghost use Rattle.board_core.specs.Flash.{range};
ghost use Rattle.key_core.specs.Algorithms.{padded};
ghost use Rattle.rom_core.specs.Gbb.{PartsFit, key_of, area_bytes, Looks, HeadFound, ReadsGbb};

use crate::area::Area;
use crate::fault::GbbFault;
use crate::gbb_parts::{GbbHead, check_head};
use crate::layout::{GBB_HEAD, LARGEST_HWID};
use board_core::{Failed, Flash};
use key_core::layout::KEY_HEAD;
use key_core::{LARGEST_KEY, PackedKey, key_at};

/// What a GBB holds: the identity of the machine, and the two keys that its firmware trusts.
#[derive(Clone, Copy, Debug, PartialEq, Eq)]
pub struct Gbb {
    /// The flags.
    pub flags: u32,
    /// The minor version of the format, 2 or more.
    pub minor: u16,
    /// The number of bytes of the HWID, 1 to 256, NULs at its end among them.
    pub hwid_len: u16,
    /// The bytes of the HWID, and zeros after them.
    pub hwid: [u8; LARGEST_HWID as usize],
    /// The root key. It may be too large to be used.
    pub root: PackedKey,
    /// The recovery key. It may be too large to be used.
    pub recovery: PackedKey,
}

/// Reads the GBB that stands in an area of the flash. It changes nothing. Each part is read once, and nothing of a part
/// that does not fit.
///
/// A `GbbFault` is the first line of the table whose test holds. `Failed`: the flash failed, and counted it.
pub fn read_gbb<F: Flash>(flash: &mut F, area: Area) -> Result<Result<Gbb, GbbFault>, Failed>
    requires { area.at + area.size ≤ (F.state flash.old).medium.size }
    ensures meets { ReadsGbb area (F.state flash.old) (F.state flash.new) result }
{
    // The flash's size is a u32, so no place in the area wraps.
    let _size = flash.size();
    let head = match read_head(flash, area)? {
        Ok(head) => head,
        Err(fault) => return Ok(Err(fault)),
    };
    let Some(root) = read_key(flash, area.at + head.root.at, head.root.size)? else {
        return Ok(Err(GbbFault::Outside));
    };
    let recovery_at = area.at + head.recovery.at;
    let Some(recovery) = read_key(flash, recovery_at, head.recovery.size)? else {
        return Ok(Err(GbbFault::Outside));
    };
    let mut hwid = [0; LARGEST_HWID as usize];
    read_padded(flash, area.at + head.hwid.at, head.hwid.size, &mut hwid)?;
    Ok(Ok(Gbb {
        flags: head.flags,
        minor: head.minor,
        hwid_len: head.hwid.size as u16,
        hwid,
        root,
        recovery,
    }))
}

// Reads the head of the GBB that stands in an area, and checks what the head alone shows.
fn read_head<F: Flash>(flash: &mut F, area: Area) -> Result<Result<GbbHead, GbbFault>, Failed>
    requires { area.at + area.size ≤ (F.state flash.old).medium.size }
    ensures looks { Looks (F.state flash.old) (F.state flash.new) (is_err result) }
    ensures found { IsTrue (F.state flash.old).medium.told → IfOk result (HeadFound area.size (area_bytes area
        (F.state flash.old).medium)) }
    ensures fits { IfOk result (λ answer. IfOk answer (PartsFit area.size)) }
{
    if area.size < GBB_HEAD {
        return Ok(Err(GbbFault::Size));
    }
    let mut bytes = [0; GBB_HEAD as usize];
    flash.read(area.at, &mut bytes)?;
    Ok(check_head(&bytes, area.size))
}

// Reads the packed key that begins at `at`, where its bytes lie behind it in the `size` bytes from `at`.
fn read_key<F: Flash>(flash: &mut F, at: u32, size: u32) -> Result<Option<PackedKey>, Failed>
    requires inside { at + size ≤ (F.state flash.old).medium.size }
    requires head { 32 ≤ size }
    ensures looks { Looks (F.state flash.old) (F.state flash.new) (is_err result) }
    ensures key { IsTrue (F.state flash.old).medium.told → IfOk result (λ key. key ≡ key_of size (range
        (F.state flash.old).medium.bytes at size)) }
{
    // The flash's size is a u32, so no place in the key wraps.
    let _size = flash.size();
    let mut bytes = [0; KEY_HEAD as usize];
    flash.read(at, &mut bytes)?;
    let head = key_at(&bytes, 0);
    if !head.is_inside(size) {
        return Ok(None);
    }
    let mut key = PackedKey {
        algorithm: head.algorithm,
        version: head.version,
        size: head.size,
        bytes: [0; LARGEST_KEY],
    };
    read_padded(flash, at + head.offset, head.size, &mut key.bytes)?;
    Ok(Some(key))
}

// Reads so many bytes from `at` into the front of a buffer of zeros. Bytes that have no room are not read.
fn read_padded<F: Flash>(flash: &mut F, at: u32, size: u32, room: &mut [u8]) -> Result<(), Failed>
    requires inside { at + size ≤ (F.state flash.old).medium.size }
    requires zeros { room.old ≡ replicate (length room.old) 0 }
    ensures looks { Looks (F.state flash.old) (F.state flash.new) (is_err result) }
    ensures padded { IsTrue (F.state flash.old).medium.told → OnOk result (room.new ≡ padded (length room.old) (range
        (F.state flash.old).medium.bytes at size)) }
{
    let size = size as usize;
    if size <= room.len() {
        flash.read(at, &mut room[..size])?;
    }
    Ok(())
}
