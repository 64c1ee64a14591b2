//! Views of keys and keyblocks over one buffer: each part is handed out where it stands, without a copy, and only after
//! every offset was checked in whole numbers.
#![tactic(auto)]

mod algorithm;
mod fault;
mod key;
mod keyblock;
pub mod layout;
mod parts;

pub use algorithm::{LAST_ALGORITHM, key_fault, signature_length};
pub use fault::{KeyFault, KeyblockFault};
pub use key::{KeyView, LARGEST_KEY, PackedKey, pack};
pub use keyblock::{KeyblockView, Seal};
pub use parts::{KeyHead, SignatureHead, is_inside, key_at, signature_at};
