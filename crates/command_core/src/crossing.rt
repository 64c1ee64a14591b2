// The command that is the crossystem tool.
ghost use Rattle.std.specs.Prelude.{◌≡◌, map, string_bytes};
ghost use Rattle.board_core.specs.World.{world};
ghost use Rattle.boot_core.specs.Carries.{IsSettled};
ghost use Rattle.command_core.specs.Crossing.{WorksWords, EndsCross};

use crate::answer::{Answer, Status};
use crate::printing::print;
use board_core::{Device, Disk, Flash, Hook, Platform, Sink, Tpm};
use crossystem_core::{CrossFault, crossystem, first_refusal};
use rom_core::locate;

/// Works these words with the crossystem tool on a board, and answers the exit status. Where no word is refused, the map of the flash
/// is looked for first.
pub fn run_crossystem<F: Flash, T: Tpm, D: Disk, E: Disk, H: Hook, O: Sink>(
    p: &mut Platform<F, T, D, E, H>,
    words: &[String],
    out: &mut O,
) -> Status
    requires { IsSettled (world F.state T.state H.state p.old) }
    ensures { WorksWords (map string_bytes words.now) (world F.state T.state H.state p.old) (world F.state T.state H.state p.new)
        (O.state out.old) (O.state out.new) result }
{
    if first_refusal(words).is_none() {
        let Ok(at) = locate(&mut p.flash) else {
            return print(out, &Answer::Failed(Device::Flash));
        };
        p.map_at = at;
    }
    let answer = crossystem(&mut p.flash, &mut p.tpm, p.map_at, words, out);
    end_crossystem(out, answer)
}

// Ends the tool, and answers the exit status.
fn end_crossystem<O: Sink>(out: &mut O, answer: Result<(), CrossFault>) -> Status
    ensures ends { EndsCross answer (O.state out.old) (O.state out.new) result }
    ensures not_usage { result ≡ Status.Usage → ⊥ }
    ensures not_memory { result ≡ Status.NoMemory → ⊥ }
{
    match answer {
        Ok(()) => Status::Done,
        Err(CrossFault::Write) => Status::SinkFault,
        Err(CrossFault::Refused { word, code }) => print(out, &Answer::RefusedWord { word, code }),
        Err(CrossFault::Device(device)) => print(out, &Answer::Failed(device)),
        Err(CrossFault::BadFlash(fault)) => print(out, &Answer::BadFlash(fault)),
        Err(CrossFault::Differs { word }) => print(out, &Answer::Differs { word }),
    }
}
