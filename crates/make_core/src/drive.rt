// The disk and the stick of a machine, as the parts that stand on them.
ghost use Rattle.std.specs.Prelude.{◌≡◌, ◌<◌, ◌≤◌, All};
ghost use Rattle.make_core.specs.Drive.{disk_drive, stick_drive, drive_with, kernel_of, IsDrive, IsKernel, IsSecond};
ghost use Rattle.make_core.specs.Kernel.{AreKernelTags};
ghost use Rattle.make_core.specs.Table.{drive_table, IsRow};

use crate::drive_layout::*;
use crate::entries::{make_entries, make_guid};
use crate::kernel::make_kernel_head;
use gpt_core::{Head, Side, header_sector};

/// A kernel: its keyblock and its preamble up to the zeros, and the tag of its body.
#[derive(Clone, Copy)]
pub struct Kernel {
    pub head: [u8; KERNEL_HEAD],
    pub body: u32,
}

/// What stands on a drive: the headers of both copies of its table, the entries, and one kernel or two.
#[derive(Clone, Copy)]
pub struct Drive {
    pub primary: [u8; 512],
    pub entries: [u8; 16384],
    pub backup: [u8; 512],
    pub first: Kernel,
    pub second: Option<Kernel>,
}

// The kernel of this version and of these tags.
fn make_kernel(number: u32, version: u32, tags: &KernelTags) -> Kernel
    requires { AreKernelTags tags.now }
    ensures value { result ≡ kernel_of number version tags.now }
    ensures sizes { IsKernel result }
{
    Kernel {
        head: make_kernel_head(number, version, tags),
        body: tags.body,
    }
}

// The drive whose GUID has this tag, with these entries and kernels.
fn make_drive(
    number: u32,
    tag: u32,
    rows: &[EntryRow],
    first: Kernel,
    second: Option<Kernel>,
) -> Drive
    requires tag { tag < 256 }
    requires rows { All (IsRow tag) rows.now }
    requires first { IsKernel first }
    requires second { IsSecond second }
    ensures value { result ≡ drive_with (drive_table number tag rows.now) first second }
    ensures sizes { IsDrive result }
{
    let entries = make_entries(number, tag, rows);
    let head = Head {
        guid: make_guid(number, tag),
        first: USABLE.0,
        last: USABLE.1,
    };
    Drive {
        primary: header_sector(Side::Primary, DRIVE_SECTORS, &head, &entries),
        entries,
        backup: header_sector(Side::Backup, DRIVE_SECTORS, &head, &entries),
        first,
        second,
    }
}

/// The disk of the machine of a number.
pub fn make_disk(number: u32) -> Drive
    ensures value { result ≡ disk_drive number }
    ensures sizes { IsDrive result }
{
    let first = make_kernel(number, 2 + number % 8, &KERNEL_A);
    let second = make_kernel(number, 1 + number % 8, &KERNEL_B);
    make_drive(number, DISK_TAG, &DISK_ROWS, first, Some(second))
}

/// The stick of the machine of a number.
pub fn make_stick(number: u32) -> Drive
    ensures value { result ≡ stick_drive number }
    ensures sizes { IsDrive result }
{
    let first = make_kernel(number, 1, &KERNEL_STICK);
    make_drive(number, STICK_TAG, &STICK_ROWS, first, None)
}
