// What a boot sees on a drive.
ghost use Rattle.std.specs.Prelude.{◌≡◌, length};
ghost use Rattle.walk_core.specs.Kernels.{walk_question};
ghost use Rattle.walk_core.specs.Seen.{Sees};

use crate::walked::Walked;
use crate::walking::walk;
use board_core::{Disk, Failed, Hook};
use chain_core::Failure;
use gpt_core::{Found, GptRoom, read_table};
use kernel_core::{BodyRoom, HEAD_SIZE, KernelRequest};

/// What is seen on a drive.
#[derive(Clone, Copy, Debug, PartialEq, Eq)]
pub enum Seen {
    /// Neither copy of its table is good.
    NoTable,
    /// It has a table.
    Table {
        /// What the walk over its kernels came to.
        walked: Walked,
        /// Whether the table after the walk is to be written: the copies do not agree, or an entry is another one.
        changed: bool,
    },
}

/// Reads the table of a drive on which nothing is pending, and walks over its kernels. Disk and hook keep their content. At
/// most 66 sectors are read beside those of the walk. No memory is taken.
///
/// Where there is a table, the room holds it afterwards as it is after the walk, and it can be committed to this drive. Where a
/// kernel is chosen, `body` hands out its body.
///
/// `Failure`: the disk or the hook failed, and its count of faults rose; then nothing else was decided, and the room holds any
/// table.
pub fn see<D: Disk, H: Hook>(
    disk: &mut D,
    hook: &mut H,
    gpt: &mut GptRoom,
    vblock: &mut [u8],
    body: &mut BodyRoom,
    request: &KernelRequest,
) -> Result<Seen, Failure>
    requires size { length vblock.old ≡ HEAD_SIZE }
    requires settled { (D.state disk.old).medium.pending ≡ 0 }
    ensures meets { Sees (walk_question (D.state disk.old) (H.state hook.old) request.now) gpt.new
        (D.state disk.new) (H.state hook.new) body.new result }
{
    match read_table(disk, gpt) {
        Ok(Found::None) => return Ok(Seen::NoTable),
        Ok(_) => (),
        Err(Failed) => return Err(Failure::Store),
    }
    match walk(disk, hook, gpt, vblock, body, request) {
        Ok(walked) => Ok(Seen::Table {
            walked,
            changed: gpt.changed(),
        }),
        Err(failure) => Err(failure),
    }
}
