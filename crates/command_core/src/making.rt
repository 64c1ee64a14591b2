// The command that makes the images of a machine.
ghost use Rattle.std.specs.Prelude.{◌≡◌};
ghost use Rattle.board_core.specs.World.{world};
ghost use Rattle.boot_core.specs.Carries.{IsSettled};
ghost use Rattle.command_core.specs.Making.{refusal_of, EndsMake, Makes};

use crate::answer::{Answer, Status};
use crate::printing::print;
use board_core::{Disk, Flash, Hook, Platform, Sink, Tpm};
use make_core::{MakeFault, make};

/// Makes the machine of this number on a board, and answers the exit status. It prints nothing where it is made, else why
/// it was not.
pub fn run_make<F: Flash, T: Tpm, D: Disk, E: Disk, H: Hook, O: Sink>(
    p: &mut Platform<F, T, D, E, H>,
    number: u32,
    out: &mut O,
) -> Status
    requires { IsSettled (world F.state T.state H.state p.old) }
    ensures { Makes number (world F.state T.state H.state p.old) (world F.state T.state H.state p.new) (O.state out.old)
        (O.state out.new) result }
{
    let answer = make(p, number);
    end_make(out, answer)
}

// Ends the making of a machine, and answers the exit status.
fn end_make<O: Sink>(out: &mut O, answer: Result<(), MakeFault>) -> Status
    ensures ends { EndsMake answer (O.state out.old) (O.state out.new) result }
    ensures not_usage { result ≡ Status.Usage → ⊥ }
{
    match answer {
        Ok(()) => Status::Done,
        Err(fault) => print(out, &refusal(fault)),
    }
}

fn refusal(fault: MakeFault) -> Answer
    ensures { result ≡ refusal_of fault }
{
    match fault {
        MakeFault::Size(device) => Answer::WrongSize(device),
        MakeFault::Device(device) => Answer::Failed(device),
        MakeFault::HookFull => Answer::HookFull,
        MakeFault::Memory => Answer::OutOfMemory,
    }
}
