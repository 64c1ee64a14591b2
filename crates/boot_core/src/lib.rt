//! One boot over a board: what the devices hold is read, the plan is made from it, its changes are made, and both spaces of the
//! TPM are locked where the boot goes on.
//!
//! - `switches` has what is set from outside, `outcome` what a boot comes to, `room` its memory, and `found` what it reads first.
//! - `reading` reads, and `planning` makes the plan of what was found: `slots` verifies the selected slot, `drives` says on which
//!   drive it is looked for a kernel and by which rules, `drive_seen` looks there, and `plan` has the rows of the plan.
//! - `spaces` has what a boot makes of the record and of both spaces, `changing` makes the changes, `locking` locks the spaces, and
//!   `booting` is the whole.
//!
//! In specs/, `Facts` is what is found, `Slots` and `Drives` what is asked of a slot and of a drive, `Spaces` what becomes of the
//! record and the spaces, `Plan` the plan as one function of the board, `Changes` what each change makes of it, `Hands` what is
//! known of what is handed over, `Carries` what a part of a boot promises, `Steps` what its steps do, and `Boots` a whole one.
#![tactic(auto)]

mod booting;
mod changing;
mod drive_seen;
mod drives;
mod found;
mod laws;
mod locking;
mod outcome;
mod plan;
mod planning;
mod reading;
mod room;
mod slots;
mod spaces;
mod switches;

pub use booting::boot;
pub use laws::{good_choice_is_taken, nvdata_is_beside, table_is_beside};
pub use outcome::{Hand, Outcome};
pub use room::Room;
pub use switches::{Choice, Switches};
