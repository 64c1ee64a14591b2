// The marks that a walk leaves in the attributes of entries.
ghost use Rattle.std.specs.Prelude.{◌≡◌, ◌+◌, ◌≤◌, IfSome};
ghost use Rattle.gpt_core.specs.Format.{IsValidTable};
ghost use Rattle.walk_core.specs.Candidates.{rank_in};
ghost use Rattle.walk_core.specs.Steps.{entry_at, chosen_at, is_bad_at, is_tried_at, fate_at, mark_of, MarksEntries};

use crate::attributes::{bad_attributes, tried_attributes};
use crate::candidates::{CANDIDATES, is_candidate, rank};
use gpt_core::{Entry, GptRoom};

// Whether the candidate of a rank is bad, where one of the rank `chosen` may be chosen.
fn is_bad(rank: u32, chosen: Option<u32>, bad_head: bool) -> bool
    ensures { result ≡ is_bad_at bad_head rank chosen }
{
    match chosen {
        None => true,
        Some(chosen) => rank < chosen || (chosen < rank && bad_head),
    }
}

// Whether the entry of an index less 1 is the chosen one.
fn is_tried(k: u32, chosen: Option<u32>) -> bool
    ensures { result ≡ is_tried_at k chosen }
{
    match chosen {
        None => false,
        Some(chosen) => chosen % CANDIDATES as u32 == k,
    }
}

/// The attributes of an entry after a walk that chose the candidate of the rank `chosen`, or none. The index of the entry is
/// `k` and 1 more, and `bad_head` says that its head was examined behind the chosen one and is not good.
pub fn fate(entry: &Entry, k: u32, chosen: Option<u32>, bad_head: bool) -> u64
    requires { k + 1 ≤ CANDIDATES }
    ensures { result ≡ fate_at bad_head entry.now k chosen }
{
    if is_tried(k, chosen) {
        return tried_attributes(entry.attributes);
    }
    if is_candidate(entry) && is_bad(rank(entry.attributes, k + 1), chosen, bad_head) {
        bad_attributes(entry.attributes)
    } else {
        entry.attributes
    }
}

/// Marks each entry of a table after a walk: the chosen one as tried, each candidate before it as bad, and those behind it
/// of which `bad` tells. Where none is chosen, each candidate is marked as bad. `chosen` is a rank.
pub(crate) fn mark(gpt: &mut GptRoom, chosen: Option<u32>, bad: &[bool; CANDIDATES])
    requires valid { IsValidTable gpt.old.sectors gpt.old.table }
    requires chosen { IfSome chosen (λ rank. rank ≡ rank_in gpt.old.table.entries (entry_at rank)) }
    ensures meets { MarksEntries (mark_of bad.now) (chosen_at chosen) gpt.old gpt.new }
{
    for k in 0..CANDIDATES as u32 {
        let entry = gpt.entry(k + 1);
        let attributes = fate(&entry, k, chosen, bad[k as usize]);
        gpt.set_attributes(k + 1, attributes);
    }
}
