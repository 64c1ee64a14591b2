// What a boot reads from its devices before it changes any.
use nvstore_core::NvState;
use record_core::{FwSpace, KernelSpace, SpaceFault};
use rom_core::{Gbb, GbbFault, Map};

/// What a boot found in its devices, where the map of the flash has no fault.
#[derive(Clone, Copy, Debug)]
pub struct Found {
    /// The areas of the flash.
    pub map: Map,
    /// What the two pages of nvdata stand for.
    pub state: NvState,
    /// The GBB, or its fault.
    pub gbb: Result<Gbb, GbbFault>,
    /// The firmware space, or its fault.
    pub firmware: Result<FwSpace, SpaceFault>,
    /// The kernel space, or its fault.
    pub kernel: Result<KernelSpace, SpaceFault>,
}
