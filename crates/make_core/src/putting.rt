// Putting bytes into their place in a buffer.
ghost use Rattle.std.specs.Prelude.{◌≡◌, ◌+◌, ◌*◌, ◌<◌, ◌≤◌, length};
ghost use Rattle.make_core.specs.Fill.{fill_from};
ghost use Rattle.make_core.specs.Firmware.{words};
ghost use Rattle.make_core.specs.Puts.{Puts};

use byteorder::{ByteOrder, LittleEndian};

/// Puts bytes from a place on.
pub fn put_bytes(out: &mut [u8], at: usize, bytes: &[u8])
    requires { at + length bytes.now ≤ length out.old }
    ensures { Puts at bytes.now out.old out.new }
{
    out[at..at + bytes.len()].copy_from_slice(bytes);
}

/// Puts little-endian `u32` numbers, one after another, from a place on.
pub fn put_words(out: &mut [u8], at: usize, numbers: &[u32])
    requires few { length numbers.now ≤ 1024 }
    requires inside { at + 4 * length numbers.now ≤ length out.old }
    ensures { Puts at (words numbers.now) out.old out.new }
{
    LittleEndian::write_u32_into(numbers, &mut out[at..at + 4 * numbers.len()]);
}

// Fills the bytes, of which the first has the place `first`, in bytes.
fn fill_bytes(out: &mut [u8], number: u32, tag: u32, first: u32)
    requires tag { tag < 256 }
    requires near { first + length out.old ≤ 1048576 }
    ensures { out.new ≡ fill_from number tag first (length out.old) }
{
    let start = 31 * (number % 256) + 17 * tag;
    for (k, byte) in out.iter_mut().enumerate() {
        let place = first + k as u32;
        *byte = ((start + 7 * place + place / 256) % 256) as u8;
    }
}

/// Puts `count` filled bytes, of which the first has the place `first` among those of this tag, from a place on.
pub fn put_fill(out: &mut [u8], at: usize, number: u32, tag: u32, first: u32, count: usize)
    requires tag { tag < 256 }
    requires near { first + count ≤ 1048576 }
    requires inside { at + count ≤ length out.old }
    ensures { Puts at (fill_from number tag first count) out.old out.new }
{
    fill_bytes(&mut out[at..at + count], number, tag, first);
}
