//! The decisions about modes and firmware slots that a boot takes from its records.
#![tactic(auto)]

mod boot_mode;
mod decision;
mod failure;
mod flags;
mod selection;
mod slot;

pub use boot_mode::{Mode, ModeFacts};
pub use decision::{is_developer_on, mode};
pub use failure::fail;
pub use flags::boot_flags;
pub use selection::{Selection, select};
pub use slot::Slot;
