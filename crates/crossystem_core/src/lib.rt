//! The crossystem tool: what a machine keeps for its next boot, by the names of its keys.
//!
//! - `key` has the keys, one row each, and `values` the texts of their values.
//! - `setting` has what a set does to a record, and `showing` what a key shows.
//! - `reading` reads it of the devices.
//! - `words` reads the words of a call, `running` works them, and `putting` puts what they show.
//! - `tool` is the call that does all of it.
//! - `migrating` brings the kernel space of a TPM into its newer form.
//! - `fault` has the answers, and `laws` what is shown and taken.
#![tactic(auto)]

mod fault;
mod key;
mod laws;
mod migrating;
mod putting;
mod reading;
mod running;
mod setting;
mod showing;
mod tool;
mod values;
mod words;

pub use fault::{CrossCode, CrossFault, MigrateFault, SetFault};
pub use key::{Key, find_key};
pub use laws::shown_texts_are_taken;
pub use migrating::migrate;
pub use reading::view;
pub use setting::set;
pub use showing::{CrossView, Hwid, check, get};
pub use tool::crossystem;
pub use values::ValueText;
pub use words::{Refusal, first_refusal};
