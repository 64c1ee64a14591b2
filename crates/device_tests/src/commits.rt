// A commit of a table that is stopped at each of its calls, by a disk that fails and by a fuse.
ghost use Rattle.std.specs.Prelude.{◌≡◌, IfOk, OnOk};
ghost use Rattle.board_mem.specs.MemDisk.{mem_disk_state};
ghost use Rattle.gpt_core.specs.Room.{CanCommit};

use board_core::{Disk, Failed, FuseDisk};
use board_mem::{FailAt, MemDisk, Remains};
use gpt_core::{Found, GptRoom, commit, read_table};
use std::alloc::{AllocError, Global};
use std::test::Fail;

/// The bytes of a disk of 96 sectors, and the first byte of its backup copy.
const SIZE: usize = 96 * 512;

const BACKUP_AT: usize = 63 * 512;

// A disk in memory with these bytes, as far as they are whole sectors.
fn make_disk(alloc: Global, bytes: &[u8], fails: &[FailAt]) -> Result<MemDisk, AllocError>
    ensures settled { IfOk result (λ disk. (mem_disk_state disk).medium.pending ≡ 0) }
{
    let whole = bytes.len() / 512 * 512;
    MemDisk::new(alloc, &bytes[..whole], fails)
}

// Reads the table, or starts one where there is none.
fn open_table<D: Disk>(disk: &mut D, room: &mut GptRoom) -> Result<(), Failed>
    requires { (D.state disk.old).medium.pending ≡ 0 }
    ensures settled { (D.state disk.new).medium.pending ≡ 0 }
    ensures sectors { (D.state disk.new).medium.sectors ≡ (D.state disk.old).medium.sectors }
    ensures ready { OnOk result (CanCommit (D.state disk.new) room.new) }
{
    let Found::None = read_table(disk, room)? else {
        return Ok(());
    };
    if !room.start(disk, [7; 16]) {
        return Err(Failed);
    }
    Ok(())
}

// Gives entry 1 these attributes on the disk.
fn renew<D: Disk>(disk: &mut D, room: &mut GptRoom, attributes: u64) -> Result<(), Failed>
    requires { (D.state disk.old).medium.pending ≡ 0 }
    ensures settled { (D.state disk.new).medium.pending ≡ 0 }
{
    open_table(disk, room)?;
    room.set_attributes(1, attributes);
    commit(disk, room)
}

// What is found on a disk, with the attributes of entry 1.
fn look<D: Disk>(disk: &mut D, room: &mut GptRoom) -> Result<(Found, u64), Failed>
    requires { (D.state disk.old).medium.pending ≡ 0 }
    ensures settled { (D.state disk.new).medium.pending ≡ 0 }
{
    let found = read_table(disk, room)?;
    Ok((found, room.entry(1).attributes))
}

// Reads as many sectors as the buffer has, from the first one on.
fn read_all<D: Disk>(disk: &mut D, image: &mut [u8]) -> Result<(), Failed> {
    let count = image.len() / 512;
    if count as u64 > disk.sectors() {
        return Err(Failed);
    }
    disk.read(0, &mut image[..count * 512])
}

// The bytes of a disk whose table gives entry 1 these attributes.
fn image_with(alloc: Global, room: &mut GptRoom, attributes: u64) -> Result<Vec<u8>, Fail> {
    let mut image = vec![in alloc; 0; SIZE]?;
    let mut disk = make_disk(alloc, &image, &[])?;
    renew(&mut disk, room, attributes)?;
    read_all(&mut disk, &mut image)?;
    Ok(image)
}

// Puts the backup copy of one image into another.
fn put_backup(image: &mut [u8], other: &[u8]) {
    if image.len() == SIZE && other.len() == SIZE {
        image[BACKUP_AT..].copy_from_slice(&other[BACKUP_AT..]);
    }
}

// Spoils the header of the primary copy or that of the backup copy.
fn spoil(image: &mut [u8], primary: bool, backup: bool) {
    if image.len() != SIZE {
        return;
    }
    if primary {
        image[512] = 0;
    }
    if backup {
        image[SIZE - 512] = 0;
    }
}

// The states from which a commit may begin: both copies good and equal; good and different; the primary copy alone; the backup
// copy alone; neither.
fn start(alloc: Global, room: &mut GptRoom, state: u8) -> Result<Vec<u8>, Fail> {
    let mut image = image_with(alloc, room, 1)?;
    let other = image_with(alloc, room, 3)?;
    if state == 1 {
        put_backup(&mut image, &other);
    }
    spoil(
        &mut image,
        state == 3 || state == 4,
        state == 2 || state == 4,
    );
    Ok(image)
}

// What is left after a commit that was to give entry 1 the attributes 7: the old table or the new one. A second commit
// makes both copies agree.
fn recovers<D: Disk>(disk: &mut D, room: &mut GptRoom, state: u8) -> Result<bool, Failed>
    requires { (D.state disk.old).medium.pending ≡ 0 }
{
    let (found, attributes) = look(disk, room)?;
    let is_old = match found {
        Found::None => state == 4,
        _ => state < 4 && attributes == 1,
    };
    let is_new = found != Found::None && attributes == 7;
    renew(disk, room, 9)?;
    let last = look(disk, room)?;
    Ok((is_old || is_new) && last == (Found::Primary { agree: true }, 9))
}

// A commit that a failing disk stops.
fn stop_by_disk(
    alloc: Global,
    room: &mut GptRoom,
    image: &[u8],
    fail: FailAt,
    state: u8,
) -> Result<bool, Fail> {
    let mut disk = make_disk(alloc, image, &[fail])?;
    let stopped = renew(&mut disk, room, 7).is_err();
    let whole = recovers(&mut disk, room, state)?;
    Ok(stopped && whole)
}

// A commit that a fuse stops.
fn stop_by_fuse(
    alloc: Global,
    room: &mut GptRoom,
    image: &[u8],
    call: u32,
    keep: u32,
    state: u8,
) -> Result<bool, Fail> {
    let mut fuse = FuseDisk::new(alloc, make_disk(alloc, image, &[])?);
    fuse.arm(call.max(1), keep)?;
    let stopped = renew(&mut fuse, room, 7).is_err();
    fuse.revive();
    let whole = recovers(&mut fuse, room, state)?;
    Ok(stopped && whole)
}

// A commit stopped at each of its six calls, by a disk that fails after the two reads, and by a fuse.
fn stops(alloc: Global, room: &mut GptRoom, state: u8) -> Result<bool, Fail> {
    let image = start(alloc, room, state)?;
    let mut all = true;
    for call in 1..7 {
        for remains in [Remains::Old, Remains::New, Remains::Fill(0)] {
            let fail = FailAt {
                call: call + 2,
                remains,
            };
            all = stop_by_disk(alloc, room, &image, fail, state)? && all;
        }
        for keep in [0, 512, 8192] {
            all = stop_by_fuse(alloc, room, &image, call, keep, state)? && all;
        }
    }
    Ok(all)
}

// From each state each stop leaves the old table or the new one.
#[test]
fn a_commit_that_is_stopped(rt: HostRuntime) -> Result<(), Fail> {
    let mut room = GptRoom::reserve(rt.alloc())?;
    for state in 0..5 {
        let all = stops(rt.alloc(), &mut room, state)?;
        assert!(rt; all, "state {state}");
    }
    Ok(())
}
