//! The commands of the program over any board: from the words to the printed answer and the exit status.
//!
//! - `command` has the commands and their words, `switch_words` those of a boot, and `answer` what each came to, with its text and
//!   its exit status.
//! - `booting`, `crossing`, `kernel_showing`, `making`, `migrating`, `partitions` and `showing` work a command on a board, and `running` any of them;
//!   `printing` puts the answer, and `laws` has that it tells what a boot came to.
#![tactic(auto)]

mod answer;
mod booting;
mod command;
mod crossing;
mod kernel_showing;
mod laws;
mod making;
mod migrating;
mod partitions;
mod printing;
mod running;
mod showing;
mod switch_words;

pub use answer::{Answer, CgptRefusal, Status};
pub use command::{Command, command_of};
pub use laws::{exit_status_tells, lines_tell_answers_apart};
pub use printing::print;
pub use running::run;
