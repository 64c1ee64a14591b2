//! The records that a machine keeps between two boots: the nvdata record, and the firmware and the kernel space of the TPM.
#![tactic(auto)]

mod field;
mod fw_space;
mod kernel_space;
mod nv;
mod space;

pub use field::{NvField, fits};
pub use fw_space::FwSpace;
pub use kernel_space::KernelSpace;
pub use nv::{Ceiling, Nv, NvForm};
pub use space::SpaceFault;
