//! Views of firmware and kernel preambles over one buffer: each part is handed out where it stands, without a copy, and
//! only after every offset was checked in whole numbers.
#![tactic(auto)]

mod common;
mod fault;
mod firmware;
mod kernel;
pub mod layout;

pub use common::{CommonView, PreambleKind};
pub use fault::{FwPreambleFault, KernelPreambleFault, firmware_line};
pub use firmware::FwPreambleView;
pub use kernel::KernelPreambleView;
