// Whether an entry may stand beside the others.
ghost use Rattle.std.specs.Prelude.{◌≡◌, ◌<◌, length};
ghost use Rattle.gpt_core.specs.Placing as spec;

use crate::entries::{first_sector, has_guid, is_used, last_sector};
use crate::layout::ENTRY_COUNT;

// Whether no used entry but entry `k` has one of these sectors.
pub(crate) fn is_free(entries: &[u8], k: u32, first: u64, last: u64) -> bool
    requires { length entries.now ≡ 16384 }
    ensures { result ≡ spec.is_free entries.now k first last }
{
    for j in 0..ENTRY_COUNT {
        if !leaves_sectors(entries, k, first, last, j) {
            return false;
        }
    }
    true
}

// Whether no used entry but entry `k` has this unique GUID.
pub(crate) fn is_unique(entries: &[u8], k: u32, unique: &[u8; 16]) -> bool
    requires { length entries.now ≡ 16384 }
    ensures { result ≡ spec.is_unique entries.now k unique.now }
{
    for j in 0..ENTRY_COUNT {
        if !leaves_guid(entries, k, unique, j) {
            return false;
        }
    }
    true
}

// Whether entry `j` is entry `k`, or unused, or has none of these sectors.
fn leaves_sectors(entries: &[u8], k: u32, first: u64, last: u64, j: u32) -> bool
    requires size { length entries.now ≡ 16384 }
    requires place { j < 128 }
    ensures { result ≡ spec.leaves_sectors entries.now k first last j }
{
    let below = last_sector(entries, j) < first;
    let above = last < first_sector(entries, j);
    j == k || !is_used(entries, j) || below || above
}

// Whether entry `j` is entry `k`, or unused, or has another unique GUID.
fn leaves_guid(entries: &[u8], k: u32, unique: &[u8; 16], j: u32) -> bool
    requires size { length entries.now ≡ 16384 }
    requires place { j < 128 }
    ensures { result ≡ spec.leaves_guid entries.now k unique.now j }
{
    j == k || !is_used(entries, j) || !has_guid(entries, j, unique)
}
