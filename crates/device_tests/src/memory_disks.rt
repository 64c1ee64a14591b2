// What a disk in memory and a fuse over one leave at a stop, over three pending writes that overlap.
ghost use Rattle.std.specs.Prelude.{◌≡◌, IfOk};
ghost use Rattle.board_mem.specs.MemDisk.{mem_disk_state};

use board_core::{Disk, Failed, FuseDisk, FuseState};
use board_mem::*;
use std::alloc::{AllocError, Global};
use std::test::Fail;

// A disk of four sectors of the bytes 0x10 to 0x13.
fn make_disk(alloc: Global, fails: &[FailAt]) -> Result<MemDisk, AllocError>
    ensures sectors { IfOk result (λ disk. (mem_disk_state disk).medium.sectors ≡ 4) }
    ensures settled { IfOk result (λ disk. (mem_disk_state disk).medium.pending ≡ 0) }
{
    let mut content = [0x10; 2048];
    content[512..1024].fill(0x11);
    content[1024..1536].fill(0x12);
    content[1536..].fill(0x13);
    MemDisk::new(alloc, &content, fails)
}

// Writes sectors 0 and 1, then 1 and 2, then 1 alone. The first failure ends it.
fn write_three<D: Disk>(disk: &mut D) -> Result<(), Failed>
    requires sectors { (D.state disk.old).medium.sectors ≡ 4 }
    requires settled { (D.state disk.old).medium.pending ≡ 0 }
    ensures { (D.state disk.new).medium.sectors ≡ 4 }
{
    disk.write(0, &[0xa1; 1024])?;
    disk.write(1, &[0xb2; 1024])?;
    disk.write(1, &[0xc3; 512])
}

// Writes the three, and flushes.
fn write_overlapping<D: Disk>(disk: &mut D) -> Result<(), Failed>
    requires sectors { (D.state disk.old).medium.sectors ≡ 4 }
    requires settled { (D.state disk.old).medium.pending ≡ 0 }
    ensures { (D.state disk.new).medium.sectors ≡ 4 }
{
    write_three(disk)?;
    disk.flush()
}

// The first byte of each of the four sectors.
fn first_bytes<D: Disk>(disk: &mut D) -> Result<[u8; 4], Failed>
    requires { (D.state disk.old).medium.sectors ≡ 4 }
    ensures { (D.state disk.new).medium.sectors ≡ 4 }
{
    let mut bytes = [0; 2048];
    disk.read(0, &mut bytes)?;
    Ok([bytes[0], bytes[512], bytes[1024], bytes[1536]])
}

#[test]
fn a_disk_leaves_what_remains(rt: HostRuntime) -> Result<(), Fail> {
    let cases = [
        (1, Remains::Old, [0x10, 0x11, 0x12, 0x13]),
        (1, Remains::New, [0xa1, 0xa1, 0x12, 0x13]),
        (1, Remains::Fill(7), [7, 7, 0x12, 0x13]),
        (2, Remains::Old, [0x10, 0xa1, 0x12, 0x13]),
        (2, Remains::New, [0xa1, 0xb2, 0xb2, 0x13]),
        (2, Remains::Fill(7), [7, 7, 7, 0x13]),
        (3, Remains::Old, [0x10, 0xb2, 0x12, 0x13]),
        (3, Remains::New, [0xa1, 0xc3, 0xb2, 0x13]),
        (3, Remains::Fill(7), [7, 7, 7, 0x13]),
        (4, Remains::Old, [0x10, 0xb2, 0x12, 0x13]),
        (4, Remains::New, [0xa1, 0xc3, 0xb2, 0x13]),
        (4, Remains::Fill(7), [7, 7, 7, 0x13]),
    ];
    for (call, remains, left) in cases {
        // The second failure comes when nothing is pending.
        let fails = [
            FailAt { call, remains },
            FailAt {
                call: call.saturating_add(2),
                remains: Remains::Fill(9),
            },
        ];
        let mut disk = make_disk(rt.alloc(), &fails)?;
        assert_eq!(rt; write_overlapping(&mut disk), Err(Failed));
        assert_eq!(rt; disk.pending(), 0);
        assert_eq!(rt; first_bytes(&mut disk), Ok(left));
        assert_eq!(rt; disk.flush(), Err(Failed));
        assert_eq!(rt; first_bytes(&mut disk), Ok(left));
        assert_eq!(rt; disk.sectors_read(), 8);
    }
    Ok(())
}

#[test]
fn a_fuse_stops_a_disk(rt: HostRuntime) -> Result<(), Fail> {
    let cases = [
        (1, 0, [0x10, 0x11, 0x12, 0x13]),
        (1, 1023, [0xa1, 0x11, 0x12, 0x13]),
        (1, 1024, [0xa1, 0xa1, 0x12, 0x13]),
        (1, 4096, [0xa1, 0xa1, 0x12, 0x13]),
        (2, 0, [0xa1, 0xa1, 0x12, 0x13]),
        (2, 512, [0xa1, 0xb2, 0x12, 0x13]),
        (3, 511, [0xa1, 0xb2, 0xb2, 0x13]),
        (3, 512, [0xa1, 0xc3, 0xb2, 0x13]),
        (4, 0, [0xa1, 0xc3, 0xb2, 0x13]),
    ];
    for (call, keep, left) in cases {
        let mut fuse = FuseDisk::new(rt.alloc(), make_disk(rt.alloc(), &[])?);
        fuse.arm(call, keep)?;
        assert_eq!(rt; write_overlapping(&mut fuse), Err(Failed));
        assert_eq!(rt; fuse.state(), FuseState::Dead);
        assert_eq!(rt; fuse.inner().pending(), 0);
        assert_eq!(rt; first_bytes(&mut fuse), Err(Failed));
        fuse.revive();
        assert_eq!(rt; first_bytes(&mut fuse), Ok(left));
    }
    Ok(())
}

// Writes sector 0, and then 1 and 2.
fn write_twice<D: Disk>(disk: &mut D, byte: u8) -> Result<(), Failed>
    requires sectors { (D.state disk.old).medium.sectors ≡ 4 }
    requires settled { (D.state disk.old).medium.pending ≡ 0 }
    ensures { (D.state disk.new).medium.sectors ≡ 4 }
{
    disk.write(0, &[byte; 512])?;
    disk.write(1, &[byte; 1024])
}

#[test]
fn a_fuse_can_be_armed_far_ahead(rt: HostRuntime) -> Result<(), Fail> {
    // The second write fails, at its read of the old bytes: the calls below are a read, a write and a read.
    let fails = [3, 6, 9].map(|call| FailAt {
        call,
        remains: Remains::Fill(9),
    });
    let mut fuse = FuseDisk::new(rt.alloc(), make_disk(rt.alloc(), &fails)?);
    // No memory holds 64 records for each of so many calls.
    fuse.arm(u32::MAX, 0)?;
    for byte in 1..=3 {
        assert!(rt; fuse.sectors() == 4 && fuse.pending() == 0);
        assert_eq!(rt; write_twice(&mut fuse, byte), Err(Failed));
        // The disk below noted the first write, and the fuse has its memory still.
        assert!(rt; fuse.inner().torn().len() == byte as usize);
        let left = u32::MAX - 2 * byte as u32;
        assert_eq!(rt; fuse.state(), FuseState::Armed { left, keep: 0 });
    }
    assert!(rt; fuse.sectors() == 4 && fuse.pending() == 0);
    assert_eq!(rt; first_bytes(&mut fuse), Ok([3, 0x11, 0x12, 0x13]));
    assert!(rt; fuse.sectors() == 4 && fuse.pending() == 0);
    fuse.arm(2, 512)?;
    assert_eq!(rt; write_twice(&mut fuse, 4), Err(Failed));
    fuse.revive();
    assert!(rt; fuse.sectors() == 4);
    assert_eq!(rt; first_bytes(&mut fuse), Ok([4, 4, 0x12, 0x13]));
    Ok(())
}
