// The candidates behind the chosen one.
ghost use Rattle.std.specs.Prelude.{◌≡◌, length};
ghost use Rattle.gpt_core.specs.Format.{IsValidTable};
ghost use Rattle.walk_core.specs.Kernels.{walk_question};
ghost use Rattle.walk_core.specs.Chosen.{later_count_by};
ghost use Rattle.walk_core.specs.Steps.{noted, none_later, AreCandidates, CountsLater, LooksLater};

use crate::candidates::{CANDIDATES, Candidates};
use crate::examine::examine_head;
use crate::first::partition_of;
use board_core::{Disk, Hook};
use chain_core::Failure;
use kernel_core::{BootMode, HEAD_SIZE, HeadOk, KernelRequest, KernelRules};

// What is known of the candidates behind the chosen one: the least version of those with a good head and of the chosen one,
// and of each entry whether its head is bad.
#[derive(Clone, Copy)]
pub(crate) struct Later {
    pub(crate) lowest: u32,
    pub(crate) bad: [bool; CANDIDATES],
}

impl Later {
    // No entry has a bad head.
    pub(crate) fn none(lowest: u32) -> Later
        ensures { result ≡ none_later lowest }
    {
        Later {
            lowest,
            bad: [false; CANDIDATES],
        }
    }

    // Notes what was found of the head of a candidate.
    fn note(&mut self, rank: u32, head: Option<HeadOk>)
        ensures { self.new ≡ noted self.old rank head }
    {
        match head {
            Some(head) => self.lowest = self.lowest.min(head.version),
            None => self.bad[rank as usize % CANDIDATES] = true,
        }
    }
}

// Whether the candidates behind the chosen one count: in normal mode, where its version is over the stored one.
fn later_count(rules: &KernelRules, version: u32) -> bool
    ensures { result ≡ later_count_by rules.now version }
{
    match rules.mode {
        BootMode::Normal => rules.stored < version,
        _ => false,
    }
}

// Examines the heads of these candidates.
fn count_later<D: Disk, H: Hook>(
    disk: &mut D,
    hook: &mut H,
    candidates: &Candidates<'_>,
    version: u32,
    vblock: &mut [u8],
    request: &KernelRequest,
) -> Result<Later, Failure>
    requires size { length vblock.old ≡ HEAD_SIZE }
    requires valid { IsValidTable candidates.now.gpt.now.sectors candidates.now.gpt.now.table }
    requires same_disk { candidates.now.gpt.now.sectors ≡ (D.state disk.old).medium.sectors }
    requires candidates { AreCandidates candidates.now.gpt.now.table.entries candidates.now.ranks.now }
    ensures meets { CountsLater
        (walk_question (D.state disk.old) (H.state hook.old) request.now)
        candidates.now.gpt.now.table.entries candidates.now.ranks.now version (D.state disk.new) (H.state hook.new) result }
{
    let mut later = Later::none(version);
    for place in 0..candidates.ranks.len() {
        let partition = partition_of(candidates.gpt, candidates.ranks[place]);
        match examine_head(disk, hook, partition, vblock, request) {
            Ok(head) => later.note(candidates.ranks[place], head),
            Err(failure) => return Err(failure),
        }
    }
    Ok(later)
}

// Examines the heads of these candidates, which stand behind the chosen one of this version, where they count.
pub(crate) fn later_heads<D: Disk, H: Hook>(
    disk: &mut D,
    hook: &mut H,
    candidates: &Candidates<'_>,
    version: u32,
    vblock: &mut [u8],
    request: &KernelRequest,
) -> Result<Later, Failure>
    requires size { length vblock.old ≡ HEAD_SIZE }
    requires valid { IsValidTable candidates.now.gpt.now.sectors candidates.now.gpt.now.table }
    requires same_disk { candidates.now.gpt.now.sectors ≡ (D.state disk.old).medium.sectors }
    requires candidates { AreCandidates candidates.now.gpt.now.table.entries candidates.now.ranks.now }
    ensures meets { LooksLater
        (walk_question (D.state disk.old) (H.state hook.old) request.now)
        candidates.now.gpt.now.table.entries candidates.now.ranks.now version (D.state disk.new) (H.state hook.new) result }
{
    if !later_count(&request.rules, version) {
        return Ok(Later::none(request.rules.stored));
    }
    count_later(disk, hook, candidates, version, vblock, request)
}
