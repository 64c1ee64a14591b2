// Whether a copy of a table is good, and what it says.
ghost use Rattle.std.specs.Prelude.{◌≡◌, ◌≤◌, ◌&&◌, length};
ghost use Rattle.gpt_core.specs.Format as spec;
ghost use Rattle.gpt_core.specs.Format.{is_good_header, are_good_entries, table_of_image};
ghost use Rattle.gpt_core.specs.Heads.{with_entries};

use crate::entries::entries_fit;
use crate::header::{Head, has_entries_crc, head_in, is_good_header};
use crate::layout::{ENTRIES_SIZE, FIRST_USABLE, LAST_USABLE, SECTOR};
use crate::side::Side;
use wire_core::u64_at;

// The header of a copy.
fn header_in(side: Side, copy: &[u8]) -> &[u8]
    requires { length copy.now ≡ 16896 }
    ensures value { result.now ≡ spec.header_in side copy.now }
    ensures size { length result.now ≡ 512 }
{
    match side {
        Side::Primary => &copy[..SECTOR],
        Side::Backup => &copy[ENTRIES_SIZE..],
    }
}

// The entries of a copy.
pub(crate) fn entries_in(side: Side, copy: &[u8]) -> &[u8]
    requires { length copy.now ≡ 16896 }
    ensures value { result.now ≡ spec.entries_in side copy.now }
    ensures size { length result.now ≡ 16384 }
{
    match side {
        Side::Primary => &copy[SECTOR..],
        Side::Backup => &copy[..ENTRIES_SIZE],
    }
}

// Whether the entries pass the tests that look at them.
fn are_good_entries(header: &[u8], entries: &[u8]) -> bool
    requires header_size { length header.now ≡ 512 }
    requires entries_size { length entries.now ≡ 16384 }
    ensures { result ≡ are_good_entries header.now entries.now }
{
    has_entries_crc(header, entries)
        && entries_fit(
            u64_at(header, FIRST_USABLE),
            u64_at(header, LAST_USABLE),
            entries,
        )
}

fn passes(side: Side, sectors: u64, header: &[u8], entries: &[u8]) -> bool
    requires enough { 69 ≤ sectors }
    requires header_size { length header.now ≡ 512 }
    requires entries_size { length entries.now ≡ 16384 }
    ensures { result ≡ (is_good_header side sectors header.now && are_good_entries header.now entries.now) }
{
    is_good_header(side, sectors, header) && are_good_entries(header, entries)
}

// What a copy says of the table beside its entries, or `None` where it is not good.
pub(crate) fn check_copy(side: Side, sectors: u64, copy: &[u8]) -> Option<Head>
    requires size { length copy.now ≡ 16896 }
    requires enough { 69 ≤ sectors }
    requires most { sectors ≤ 4294967296 }
    ensures { with_entries result (spec.entries_in side copy.now) ≡ table_of_image side sectors copy.now }
{
    let header = header_in(side, copy);
    if passes(side, sectors, header, entries_in(side, copy)) {
        return Some(head_in(header));
    }
    None
}
