//! The commands on partition tables: how their words are read, and what they do to a disk.
//!
//! - `call` is a command with its values, and `reading` reads one from the words of a command line: `options` reads the values
//!   of its options, and `values` says what a text stands for.
//! - `opening` reads the table of a disk, `lines` makes the lines of its text, and `putting` puts them into a sink. `finding` puts
//!   the entries that are looked for, `adding` makes the table with one more entry, `ranking` orders its
//!   kernels, and `saving` writes a table.
//! - `working` works a command, and `fault` says why it did not. `guid` makes the GUIDs that commands may use, and
//!   `laws` has a law on types.
#![tactic(auto)]

mod adding;
mod call;
mod fault;
mod finding;
mod guid;
mod laws;
mod lines;
mod opening;
mod options;
mod putting;
mod ranking;
mod reading;
mod saving;
mod values;
mod working;

pub use call::{CgptCall, CgptCommand, Label, WordFault};
pub use fault::CgptFault;
pub use guid::guid_of_run;
pub use laws::types_read_back;
pub use reading::words;
pub use working::cgpt;
