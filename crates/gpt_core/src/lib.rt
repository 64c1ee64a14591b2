//! The GUID partition table of a disk in two copies: it is read from the good one, and both are replaced so that any stop
//! leaves the old table or the new one.
//!
//! - `side` names the two copies and their places, and `layout` the places of the fields in them.
//! - `entry` is one entry as its fields, and `entries` whether all of them fit the disk and each other. `placing` tells whether
//!   one more may stand beside the others, and `attributes` has the fields of a kernel's attributes.
//! - `header` reads and makes a header, `bytes` puts one together, and `checking` tells whether a copy is good.
//! - `table` is a table in memory, and `room` what a caller holds of a disk: `finding` takes the table of two copies, and
//!   `found` says which.
//! - `reading` reads both copies of a disk. `writing` writes one copy, and `committing` both, the source last.
#![tactic(auto)]

mod attributes;
mod bytes;
mod checking;
mod committing;
mod entries;
mod entry;
mod finding;
mod found;
mod header;
mod layout;
mod placing;
mod reading;
mod room;
mod side;
mod table;
mod writing;

pub use attributes::{
    KERNEL_TYPE, priority_of, successful_of, tries_of, with_highest, with_priority,
    with_successful, with_tries,
};
pub use committing::commit;
pub use entry::{Entry, put_entry};
pub use found::Found;
pub use header::{Head, header_sector};
pub use reading::read_table;
pub use room::GptRoom;
pub use side::Side;
