//! A kernel: its keyblock, which the key of the machine signs or, in developer mode, a hash vouches for, its preamble and its
//! body, which the keyblock's data key signs.
//!
//! - `rules` says what a kernel is held to in each mode.
//! - `flags`, `hashed` and `keyblock` check a keyblock, and `preamble` a preamble, each with the lines of its table in order.
//! - `head` checks both, in the bytes that a partition begins with, and `head_fault` says what is wrong with one.
//! - `body` checks a body in its partition, in the room that `room` has.
#![tactic(auto)]

mod body;
mod flags;
mod hashed;
mod head;
mod head_fault;
mod keyblock;
mod partition;
mod preamble;
mod room;
mod rules;
mod signed_body;

pub use body::verify_body;
pub use flags::flag_fault;
pub use hashed::check_hashed;
pub use head::{HEAD_SIZE, read_head, verify_head};
pub use head_fault::{HeadFault, HeadOk};
pub use keyblock::verify_kernel_keyblock;
pub use partition::Partition;
pub use preamble::verify_kernel_preamble;
pub use room::{BodyRoom, LARGEST_BODY, PIECE};
pub use rules::{BootMode, KernelRequest, KernelRules};
