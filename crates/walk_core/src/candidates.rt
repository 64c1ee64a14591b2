// Which entries of a table are candidates, and in which order they are tried.
ghost use Rattle.std.specs.Prelude.{◌≡◌, ◌↔◌, ◌<◌, ◌+◌, ◌-◌, ◌≤◌, ◌∷◌, IsTrue};
ghost use Rattle.gpt_core.specs.Entries.{entry_in};
ghost use Rattle.walk_core.specs.Candidates as spec;
ghost use Rattle.walk_core.specs.Candidates.{is_kernel_candidate, ranks_among, IsEarlier, AreInOrder};

use crate::attributes::is_successful;
use arrayvec::ArrayVec;
use gpt_core::{Entry, GptRoom, KERNEL_TYPE, priority_of, tries_of};

/// The most candidates that a table has.
pub const CANDIDATES: usize = 128;

// Candidates of a table by their ranks, in the order in which they are tried.
#[derive(Clone, Copy)]
pub(crate) struct Candidates<'a> {
    pub(crate) gpt: &'a GptRoom,
    pub(crate) ranks: &'a [u32],
}

// Whether a kernel with these attributes may be booted.
fn may_boot(attributes: u64) -> bool
    ensures { result ≡ spec.may_boot attributes }
{
    priority_of(attributes) >= 1 && (is_successful(attributes) || tries_of(attributes) >= 1)
}

/// Whether the entry is a candidate: a kernel of priority over 0 that was successful or has a try left.
pub fn is_candidate(entry: &Entry) -> bool
    ensures { result ≡ is_kernel_candidate entry.now.kind entry.now.attributes }
{
    entry.kind == KERNEL_TYPE && may_boot(entry.attributes)
}

/// The place of an entry in the order in which candidates are tried: the lower, the earlier. `index` is from 1 to 128. Its
/// lowest seven bits are the index less 1.
pub fn rank(attributes: u64, index: u32) -> u32
    requires least { 1 ≤ index }
    requires most { index ≤ 128 }
    ensures value { result ≡ spec.rank attributes (index - 1) }
    ensures below { result < 2048 }
{
    (15 - priority_of(attributes)) as u32 * 128 + (index - 1)
}

/// Whether one entry comes before another where both are candidates: its priority is higher, or the priorities are equal and
/// its index is lower. That is to say that its rank is lower.
pub fn is_earlier(attributes: u64, index: u32, other_attributes: u64, other_index: u32) -> bool
    requires least { 1 ≤ index }
    requires most { index ≤ 128 }
    requires other_least { 1 ≤ other_index }
    requires other_most { other_index ≤ 128 }
    ensures answer { IsTrue result ↔ IsEarlier attributes index other_attributes other_index }
    ensures by_rank { IsTrue result ↔ (spec.rank attributes (index - 1) < spec.rank other_attributes (other_index - 1)) }
{
    rank(attributes, index) < rank(other_attributes, other_index)
}

// The ranks of the candidates, in the order of the table.
fn candidates_as_they_stand(gpt: &GptRoom) -> ArrayVec<u32, CANDIDATES>
    ensures { result.items ≡ ranks_among 128 gpt.now.table.entries }
{
    let mut ranks = ArrayVec::new();
    for k in 0..CANDIDATES as u32 {
        let entry = gpt.entry(k + 1);
        if is_candidate(&entry) {
            ranks.push(rank(entry.attributes, k + 1));
        }
    }
    ranks
}

/// The ranks of the candidates of a table, in order. A candidate's index is the rest of its rank by 128, and 1 more.
pub fn candidates_in_order(gpt: &GptRoom) -> ArrayVec<u32, CANDIDATES>
    ensures { AreInOrder gpt.now.table.entries result.items }
{
    let mut ranks = candidates_as_they_stand(gpt);
    ranks.sort_unstable();
    ranks
}
