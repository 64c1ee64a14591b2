// The walk over the kernels of a drive.
ghost use Rattle.std.specs.Prelude.{◌≡◌, length};
ghost use Rattle.gpt_core.specs.Format.{IsValidTable};
ghost use Rattle.walk_core.specs.Kernels.{walk_question};
ghost use Rattle.walk_core.specs.Steps.{entry_at};
ghost use Rattle.walk_core.specs.Walks.{kernel_for, Walks};

use crate::candidates::{CANDIDATES, Candidates, candidates_in_order};
use crate::fates::mark;
use crate::first::first_good;
use crate::later::later_heads;
use crate::walked::{Kernel, Walked};
use board_core::{Disk, Hook};
use chain_core::Failure;
use gpt_core::GptRoom;
use kernel_core::{BodyRoom, HEAD_SIZE, HeadOk, KernelRequest};

/// Chooses the kernel of a drive, of which the room holds a table that can stand on it: the good candidate than which no good candidate is
/// earlier. Then `body` hands out its body. In normal mode, where its version is over the stored one, the heads of the later
/// candidates are examined, too. Disk and hook keep their content. Each head is read once, and the body of each candidate up
/// to the chosen one whose head is good. No memory is taken.
///
/// The room then holds the table after the fates of its entries: the chosen one is tried, a candidate before it is bad, and
/// each candidate where none is chosen. A later one is bad where it was examined and its head is not good. Nothing of it is
/// written to the disk.
///
/// `Failure`: the disk or the hook failed, and its count of faults rose; then nothing else was decided, and the room stays
/// as it was.
pub fn walk<D: Disk, H: Hook>(
    disk: &mut D,
    hook: &mut H,
    gpt: &mut GptRoom,
    vblock: &mut [u8],
    body: &mut BodyRoom,
    request: &KernelRequest,
) -> Result<Walked, Failure>
    requires size { length vblock.old ≡ HEAD_SIZE }
    requires valid { IsValidTable gpt.old.sectors gpt.old.table }
    requires same_disk { gpt.old.sectors ≡ (D.state disk.old).medium.sectors }
    ensures meets { Walks
        (walk_question (D.state disk.old) (H.state hook.old) request.now)
        gpt.old gpt.new (D.state disk.new) (H.state hook.new) body.new result }
{
    let candidates = candidates_in_order(gpt);
    let ranks = candidates.as_slice();
    let all = Candidates { gpt, ranks };
    let taken = match first_good(disk, hook, &all, vblock, body, request) {
        Ok(Some(taken)) => taken,
        Ok(None) => {
            mark(gpt, None, &[false; CANDIDATES]);
            return Ok(Walked {
                chosen: None,
                lowest: request.rules.stored,
            });
        }
        Err(failure) => return Err(failure),
    };
    let behind = Candidates {
        gpt,
        ranks: &ranks[taken.place + 1..],
    };
    let later = match later_heads(disk, hook, &behind, taken.head.version, vblock, request) {
        Ok(later) => later,
        Err(failure) => return Err(failure),
    };
    let rank = ranks[taken.place];
    mark(gpt, Some(rank), &later.bad);
    Ok(Walked {
        chosen: Some(kernel_of(rank, &taken.head)),
        lowest: later.lowest,
    })
}

// The kernel of a head, of which the entry has this rank.
fn kernel_of(rank: u32, head: &HeadOk) -> Kernel
    ensures { result ≡ kernel_for (entry_at rank) head.now }
{
    Kernel {
        partition: rank % CANDIDATES as u32 + 1,
        version: head.version,
        load_address: head.load_address,
        body_len: head.body_len,
    }
}
