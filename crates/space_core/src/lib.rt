//! The two spaces of a TPM, read as records.
#![tactic(auto)]

mod reading;

pub use reading::{read_firmware_space, read_kernel_space, read_spaces};
