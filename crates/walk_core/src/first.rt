// The candidates in turn, up to the first good one.
ghost use Rattle.std.specs.Prelude.{◌≡◌, ◌+◌, ◌<◌, ◌≤◌, true, length};
ghost use Rattle.gpt_core.specs.Entries.{first_in};
ghost use Rattle.gpt_core.specs.Format.{IsValidTable};
ghost use Rattle.walk_core.specs.Candidates.{is_candidate, AreInOrder};
ghost use Rattle.walk_core.specs.Chosen.{sectors_in};
ghost use Rattle.walk_core.specs.Kernels.{walk_question};
ghost use Rattle.walk_core.specs.Examined.{ExaminesHead, ExaminesKernel};
ghost use Rattle.walk_core.specs.Steps.{entry_at, FindsFirst};

use crate::candidates::{CANDIDATES, Candidates};
use crate::examine::{examine_head, examine_kernel};
use board_core::{Disk, Hook};
use chain_core::Failure;
use gpt_core::GptRoom;
use kernel_core::{BodyRoom, HEAD_SIZE, HeadOk, KernelRequest, Partition};

// The kernel that was taken: the place of its entry among the candidates in order, and what is read of its head.
#[derive(Clone, Copy)]
pub(crate) struct Taken {
    pub(crate) place: usize,
    pub(crate) head: HeadOk,
}

// The partition of the candidate of a rank.
pub(crate) fn partition_of(gpt: &GptRoom, rank: u32) -> Partition
    requires valid { IsValidTable gpt.now.sectors gpt.now.table }
    requires candidate { is_candidate gpt.now.table.entries (entry_at rank) ≡ true }
    ensures first { result.first ≡ first_in gpt.now.table.entries (entry_at rank) }
    ensures sectors { result.sectors ≡ sectors_in gpt.now.table.entries (entry_at rank) }
    ensures inside { result.first + result.sectors ≤ gpt.now.sectors }
{
    let entry = gpt.entry(rank % CANDIDATES as u32 + 1);
    Partition {
        first: entry.first,
        sectors: entry.last + 1 - entry.first,
    }
}

// Examines these candidates in turn, up to the first one that is good.
pub(crate) fn first_good<D: Disk, H: Hook>(
    disk: &mut D,
    hook: &mut H,
    candidates: &Candidates<'_>,
    vblock: &mut [u8],
    body: &mut BodyRoom,
    request: &KernelRequest,
) -> Result<Option<Taken>, Failure>
    requires size { length vblock.old ≡ HEAD_SIZE }
    requires valid { IsValidTable candidates.now.gpt.now.sectors candidates.now.gpt.now.table }
    requires same_disk { candidates.now.gpt.now.sectors ≡ (D.state disk.old).medium.sectors }
    requires ranked { AreInOrder candidates.now.gpt.now.table.entries candidates.now.ranks.now }
    ensures meets { FindsFirst
        (walk_question (D.state disk.old) (H.state hook.old) request.now)
        candidates.now.gpt.now.table.entries candidates.now.ranks.now (D.state disk.new) (H.state hook.new) body.new result }
{
    for place in 0..candidates.ranks.len() {
        let partition = partition_of(candidates.gpt, candidates.ranks[place]);
        match examine_kernel(disk, hook, partition, vblock, body, request) {
            Ok(Some(head)) => return Ok(Some(Taken { place, head })),
            Ok(None) => {}
            Err(failure) => return Err(failure),
        }
    }
    Ok(None)
}
