// The pieces of a drive that are written at once.
ghost use Rattle.std.specs.Prelude.{◌≡◌, ◌+◌, ◌*◌, ◌<◌, ◌≤◌, [], ◌∷◌, length};
ghost use Rattle.board_core.specs.Flash.{range};
ghost use Rattle.make_core.specs.Fill.{fill};
ghost use Rattle.make_core.specs.Layout.{part};
ghost use Rattle.make_core.specs.Drive.{drive_bytes, kernel_parts, second_parts, zeros, IsDrive, IsKernel, IsSecond};
ghost use Rattle.make_core.specs.Kernel.{kernel_body_size};
ghost use Rattle.make_core.specs.DriveParts.{Overlaps, PutsParts};

use crate::drive::{Drive, Kernel};
use crate::drive_layout::*;
use crate::kernel::kernel_body_size;
use crate::putting::{put_bytes, put_fill};

// What a part has in a piece: how many bytes, from which place of the piece and from which of the part.
#[derive(Clone, Copy, Drop)]
struct Overlap {
    start: usize,
    skip: usize,
    count: usize,
}

// What a part of `size` bytes from `place` has in the `n` bytes from `at`.
fn find_overlap(at: usize, n: usize, place: usize, size: usize) -> Overlap
    requires at { at + n ≤ 8388608 }
    requires place { place + size ≤ 8388608 }
    ensures inside { result.start + result.count ≤ n }
    ensures within { result.skip + result.count ≤ size }
    ensures is { Overlaps at n place size result }
{
    if place + size <= at || at + n <= place {
        return Overlap {
            start: 0,
            skip: 0,
            count: 0,
        };
    }
    let start = place.saturating_sub(at);
    let skip = at.saturating_sub(place);
    Overlap {
        start,
        skip,
        count: (size - skip).min(n - start),
    }
}

// Puts what a part from a place has in the piece from `at`.
fn put_part(out: &mut [u8], at: usize, place: usize, bytes: &[u8])
    requires out { length out.old ≡ 32768 }
    requires at { at + 32768 ≤ 8388608 }
    requires place { place + length bytes.now ≤ 8388608 }
    ensures { PutsParts at (part place bytes.now ∷ []) out.old out.new }
{
    let o = find_overlap(at, PIECE_SIZE, place, bytes.len());
    put_bytes(out, o.start, &bytes[o.skip..o.skip + o.count]);
}

// Puts what the body of a kernel from a place has in the piece from `at`.
fn put_body(out: &mut [u8], at: usize, place: usize, number: u32, tag: u32)
    requires out { length out.old ≡ 32768 }
    requires at { at + 32768 ≤ 8388608 }
    requires place { place ≤ 1048576 }
    requires tag { tag < 256 }
    ensures { PutsParts at (part place (fill number tag (kernel_body_size number)) ∷ []) out.old out.new }
{
    let size = kernel_body_size(number) as usize;
    let o = find_overlap(at, PIECE_SIZE, place, size);
    put_fill(out, o.start, number, tag, o.skip as u32, o.count);
}

// Puts what a kernel whose partition begins at a place has in the piece from `at`.
fn put_kernel(out: &mut [u8], at: usize, place: usize, number: u32, kernel: &Kernel)
    requires out { length out.old ≡ 32768 }
    requires at { at + 32768 ≤ 8388608 }
    requires place { place ≤ 524288 }
    requires kernel { IsKernel kernel.now }
    ensures { PutsParts at (kernel_parts number place kernel.now) out.old out.new }
{
    put_body(out, at, place + KERNEL_BODY_AT, number, kernel.body);
    put_part(out, at, place, &kernel.head);
}

// Puts what the second kernel has in the piece from `at`, where there is one.
fn put_second(out: &mut [u8], at: usize, number: u32, second: &Option<Kernel>)
    requires out { length out.old ≡ 32768 }
    requires at { at + 32768 ≤ 8388608 }
    requires second { IsSecond second.now }
    ensures { PutsParts at (second_parts number second.now) out.old out.new }
{
    match second {
        Some(kernel) => put_kernel(out, at, SECOND_KERNEL_AT, number, kernel),
        None => {}
    }
}

fn make_blank_piece() -> [u8; PIECE_SIZE]
    ensures { result ≡ zeros 32768 }
{
    [0; PIECE_SIZE]
}

/// The piece of this number of a drive.
pub fn make_piece(number: u32, drive: &Drive, piece: u32) -> [u8; PIECE_SIZE]
    requires few { piece < 256 }
    requires drive { IsDrive drive.now }
    ensures { result ≡ range (drive_bytes number drive.now) (piece * 32768) 32768 }
{
    let at = piece as usize * PIECE_SIZE;
    let mut out = make_blank_piece();
    put_second(&mut out, at, number, &drive.second);
    put_kernel(&mut out, at, FIRST_KERNEL_AT, number, &drive.first);
    put_part(&mut out, at, BACKUP_AT, &drive.backup);
    put_part(&mut out, at, BACKUP_ENTRIES_AT, &drive.entries);
    put_part(&mut out, at, PRIMARY_ENTRIES_AT, &drive.entries);
    put_part(&mut out, at, PRIMARY_AT, &drive.primary);
    out
}
