// The entries of a table: which are used, and whether they fit.
ghost use Rattle.std.specs.Prelude.{◌≡◌, ◌+◌, ◌*◌, ◌<◌, ◌≤◌, nat_eq, length};
ghost use Rattle.std.specs.Cmp.Lexicographic.{pointwise};
ghost use Rattle.gpt_core.specs.Entries as spec;
ghost use Rattle.gpt_core.specs.Entries.{all_below, lies_within, are_apart};

use crate::layout::{ENTRY_COUNT, ENTRY_FIRST, ENTRY_LAST, ENTRY_SIZE, ENTRY_UNIQUE, GUID_SIZE};
use wire_core::u64_at;

// Where entry `k` begins, from 0.
pub(crate) fn place_of(k: u32) -> usize
    requires { k < 128 }
    ensures place { result ≡ 128 * k }
    ensures inside { result + 128 ≤ 16384 }
{
    k as usize * ENTRY_SIZE as usize
}

// Whether entry `k` is used: its type is not all 0.
pub(crate) fn is_used(entries: &[u8], k: u32) -> bool
    requires size { length entries.now ≡ 16384 }
    requires place { k < 128 }
    ensures { result ≡ spec.is_used entries.now k }
{
    let at = place_of(k);
    entries[at..at + GUID_SIZE] != [0; GUID_SIZE]
}

pub(crate) fn first_sector(entries: &[u8], k: u32) -> u64
    requires size { length entries.now ≡ 16384 }
    requires place { k < 128 }
    ensures { result ≡ spec.first_in entries.now k }
{
    u64_at(entries, place_of(k) + ENTRY_FIRST)
}

pub(crate) fn last_sector(entries: &[u8], k: u32) -> u64
    requires size { length entries.now ≡ 16384 }
    requires place { k < 128 }
    ensures { result ≡ spec.last_in entries.now k }
{
    u64_at(entries, place_of(k) + ENTRY_LAST)
}

// Whether entry `k` begins no later than it ends, and lies in the usable sectors.
fn lies_within(first: u64, last: u64, entries: &[u8], k: u32) -> bool
    requires size { length entries.now ≡ 16384 }
    requires place { k < 128 }
    ensures { result ≡ lies_within first last entries.now k }
{
    let from = first_sector(entries, k);
    let to = last_sector(entries, k);
    from <= to && first <= from && to <= last
}

// Whether two entries have the same unique GUID.
fn have_one_guid(entries: &[u8], j: u32, k: u32) -> bool
    requires size { length entries.now ≡ 16384 }
    requires one { j < 128 }
    requires other { k < 128 }
    ensures { result ≡ spec.have_one_guid entries.now j k }
{
    let one = place_of(j) + ENTRY_UNIQUE;
    let other = place_of(k) + ENTRY_UNIQUE;
    entries[one..one + GUID_SIZE] == entries[other..other + GUID_SIZE]
}

// Whether entry `k` has this unique GUID.
pub(crate) fn has_guid(entries: &[u8], k: u32, unique: &[u8; 16]) -> bool
    requires size { length entries.now ≡ 16384 }
    requires place { k < 128 }
    ensures { result ≡ pointwise nat_eq (spec.unique_in entries.now k) unique.now }
{
    let at = place_of(k) + ENTRY_UNIQUE;
    entries[at..at + GUID_SIZE] == unique[0..GUID_SIZE]
}

// Whether two entries share no sector, and have not the same unique GUID.
fn are_apart(entries: &[u8], j: u32, k: u32) -> bool
    requires size { length entries.now ≡ 16384 }
    requires one { j < 128 }
    requires other { k < 128 }
    ensures { result ≡ are_apart entries.now j k }
{
    let below = last_sector(entries, j) < first_sector(entries, k);
    let above = last_sector(entries, k) < first_sector(entries, j);
    (below || above) && !have_one_guid(entries, j, k)
}

// Whether entry `k` is unused, or lies in the usable sectors.
fn entry_fits(first: u64, last: u64, entries: &[u8], k: u32) -> bool
    requires size { length entries.now ≡ 16384 }
    requires place { k < 128 }
    ensures { result ≡ spec.entry_fits first last entries.now k }
{
    !is_used(entries, k) || lies_within(first, last, entries, k)
}

// Whether entry `j` is unused, or apart from entry `k`.
fn pair_fits(entries: &[u8], k: u32, j: u32) -> bool
    requires size { length entries.now ≡ 16384 }
    requires one { k < 128 }
    requires other { j < 128 }
    ensures { result ≡ spec.pair_fits entries.now k j }
{
    !is_used(entries, j) || are_apart(entries, j, k)
}

// Whether entry `k` is apart from each used one before it.
fn is_apart_from_earlier(entries: &[u8], k: u32) -> bool
    requires size { length entries.now ≡ 16384 }
    requires place { k < 128 }
    ensures { result ≡ all_below k (spec.pair_fits entries.now k) }
{
    for j in 0..k {
        if !pair_fits(entries, k, j) {
            return false;
        }
    }
    true
}

// Whether entry `k` is unused, or apart from each used one before it.
fn fits_earlier(entries: &[u8], k: u32) -> bool
    requires size { length entries.now ≡ 16384 }
    requires place { k < 128 }
    ensures { result ≡ spec.fits_earlier entries.now k }
{
    !is_used(entries, k) || is_apart_from_earlier(entries, k)
}

// Whether each used entry lies in the usable sectors `first` to `last`, and no two used entries share a sector or a
// unique GUID. Unused entries cost no time, and 128 used ones 8,128 comparisons.
pub(crate) fn entries_fit(first: u64, last: u64, entries: &[u8]) -> bool
    requires { length entries.now ≡ 16384 }
    ensures { result ≡ spec.entries_fit first last entries.now }
{
    all_lie_within(first, last, entries) && all_are_apart(entries)
}

// Whether each used entry lies in the usable sectors.
fn all_lie_within(first: u64, last: u64, entries: &[u8]) -> bool
    requires { length entries.now ≡ 16384 }
    ensures { result ≡ all_below 128 (spec.entry_fits first last entries.now) }
{
    for k in 0..ENTRY_COUNT {
        if !entry_fits(first, last, entries, k) {
            return false;
        }
    }
    true
}

// Whether no two used entries share a sector or a unique GUID.
fn all_are_apart(entries: &[u8]) -> bool
    requires { length entries.now ≡ 16384 }
    ensures { result ≡ all_below 128 (spec.fits_earlier entries.now) }
{
    for k in 0..ENTRY_COUNT {
        if !fits_earlier(entries, k) {
            return false;
        }
    }
    true
}
