//! Machines of one's own: the images of a flash, a TPM, a disk, a stick and a hook, made from a number.
//!
//! - `making` makes the machine of a number on a board.
//! - `layout` has the places, sizes and tags of the images, and `putting` puts bytes into a buffer.
//! - `parts` makes the map of the flash and the GBB, `slot` a keyblock, a preamble and the body of a slot, and `page` each
//!   page of the flash.
//! - `writing` writes these pages, `spaces` both spaces of the TPM, and `rows` the rows of the hook.
//! - `drive_layout` has the places, sizes and tags of disk and stick. `kernel` makes the head of a kernel, `entries` those of
//!   a table, `drive` all parts of a drive, and `pieces` each piece of it. `drive_writing` writes these pieces.
#![tactic(auto)]

mod drive;
mod drive_layout;
mod drive_writing;
mod entries;
mod kernel;
mod layout;
mod making;
mod page;
mod parts;
mod pieces;
mod putting;
mod rows;
mod slot;
mod spaces;
mod writing;

pub use layout::FLASH_SIZE;
pub use making::{MakeFault, make};
pub use rows::make_rows;
