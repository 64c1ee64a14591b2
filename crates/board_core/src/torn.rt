// The record of a range that a failed call left torn.
ghost use Rattle.std.specs.Prelude.{◌≡◌, ◌+◌, ◌/◌, ◌^◌, ◌<◌, ◌≤◌, ◌++◌, length, vec_len, vec_capacity};
ghost use Rattle.board_core.specs.Torn.{padded_piece, torn_piece, torn_records};

/// A piece of a range that a failed call left torn, of at most 512 bytes. The bytes of `was`, `meant` and `left` past
/// `len` are 0.
#[derive(Clone, Copy, Debug)]
pub struct Torn {
    /// The place of the piece, in bytes.
    pub at: u64,
    /// The length of the piece, in bytes.
    pub len: u16,
    /// The bytes that stood there before the call.
    pub was: [u8; 512],
    /// The bytes that the call was to leave there.
    pub meant: [u8; 512],
    /// The bytes that the call left there.
    pub left: [u8; 512],
}

// The first 512 bytes, and zeros up to 512.
fn padded(bytes: &[u8]) -> [u8; 512]
    ensures { result ≡ padded_piece bytes.now }
{
    let count = bytes.len().min(512);
    let mut piece = [0; 512];
    piece[..count].copy_from_slice(&bytes[..count]);
    piece
}

// The record of the first 512 bytes of a torn range.
fn first_piece(at: u64, was: &[u8], meant: &[u8], left: &[u8]) -> Torn
    ensures { result ≡ torn_piece at was.now meant.now left.now }
{
    Torn {
        at,
        len: meant.len().min(512) as u16,
        was: padded(was),
        meant: padded(meant),
        left: padded(left),
    }
}

/// Notes a torn range from the place `at`, in pieces of at most 512 bytes from its start, with its old, intended and left
/// bytes. It takes no memory: the list has room for the records.
pub fn note(torn: &mut Vec<Torn>, at: u64, was: &[u8], meant: &[u8], left: &[u8])
    requires was { length was.now ≡ length meant.now }
    requires left { length left.now ≡ length meant.now }
    requires end { at + length meant.now < 2 ^ 64 }
    requires room { vec_len torn.old + (length meant.now + 511) / 512 ≤ vec_capacity torn.old }
    ensures noted { torn.new.items ≡ torn.old.items ++ torn_records at was.now meant.now left.now }
    ensures len { vec_len torn.new ≡ vec_len torn.old + (length meant.now + 511) / 512 }
    ensures capacity { vec_capacity torn.old ≤ vec_capacity torn.new }
{
    let count = meant.len().min(512);
    if count == 0 {
        return;
    }
    let piece = first_piece(at, was, meant, left);
    let _ = torn.push(piece);
    note(
        torn,
        at + count as u64,
        &was[count..],
        &meant[count..],
        &left[count..],
    );
}
