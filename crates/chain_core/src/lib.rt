//! The chain of a firmware slot: the root key signs the keyblock, the keyblock's data key signs the preamble, and the same
//! key signs the body. Each byte is read once and hashed once.
//!
//! - `hasher` hashes a message by an algorithm's hash, and asks a hook for its signature.
//! - `keyblock`, `preamble` and `body` check the three parts of a slot, each with the lines of its table in order.
//! - `slot` checks a whole slot, in the room that `room` has, and `slot_fault` and `fault` say what is wrong with one.
#![tactic(auto)]

mod body;
mod fault;
mod hasher;
mod key_bytes;
mod keyblock;
mod preamble;
mod room;
mod slot;
mod slot_fault;

pub use body::{BodyPlace, verify_flash_body};
pub use fault::{BodyFault, Failure};
pub use hasher::{Hasher, is_signed};
pub use keyblock::{LARGEST_VERSION, data_key_fault, verify_keyblock};
pub use preamble::{combined_version, signature_fault, verify_preamble};
pub use room::{LARGEST_MAIN, LARGEST_VBLOCK, SlotRoom};
pub use slot::{SlotRequest, verify_slot};
pub use slot_fault::{SlotFault, SlotOk};
