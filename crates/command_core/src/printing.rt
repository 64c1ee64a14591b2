// The one way in which a command ends: its answer is put as one text, and its status is answered.
ghost use Rattle.command_core.specs.Prints.{Prints};

use crate::answer::{Answer, Status};
use board_core::Sink;

/// Prints the text of an answer, and answers the status.
pub fn print<O: Sink>(out: &mut O, answer: &Answer) -> Status
    ensures { Prints answer.now (O.state out.old) (O.state out.new) result }
{
    let text = answer.text();
    let Ok(_) = out.put(text.as_slice()) else {
        return Status::SinkFault;
    };
    answer.status()
}
