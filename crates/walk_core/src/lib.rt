//! The kernels of a drive: which may be booted and in which order, which are good and which is chosen, and what becomes of the
//! attributes of those that were tried or found bad.
//!
//! - `attributes` reads the attributes of an entry, and makes those of one that was tried or found bad.
//! - `candidates` says which entries are candidates, and in which order.
//! - `examine` tells of the kernel in one partition whether it is good.
//! - `first` goes through the candidates up to the first good one, `later` through those behind it, and `fates` marks the entries.
//! - `walking` is the walk over a drive, and `walked` what it comes to. `drive` reads the drive's table first.
#![tactic(auto)]

mod attributes;
mod candidates;
mod drive;
mod examine;
mod fates;
mod first;
mod later;
mod walked;
mod walking;

pub use attributes::{bad_attributes, is_successful, tried_attributes};
pub use candidates::{CANDIDATES, candidates_in_order, is_candidate, is_earlier, rank};
pub use drive::{Seen, see};
pub use examine::{examine_head, examine_kernel};
pub use fates::fate;
pub use walked::{Kernel, Walked};
pub use walking::walk;
