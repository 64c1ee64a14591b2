//! What the firmware of a flash is, as text: its map, its GBB, and the keyblock and the preamble of each slot. And what the
//! kernel in a partition is: its keyblock and its preamble.
//!
//! - `facts` has what is shown.
//! - `reading` reads it of a flash, and `partition_reading` of a partition.
//! - `printing` makes its text; `show` and `partition` are the calls that do both.
#![tactic(auto)]

mod facts;
mod partition;
mod partition_reading;
mod printing;
mod reading;
mod show;

pub use facts::{
    FlashFacts, GbbFacts, KernelFacts, KernelPreambleFacts, KeyblockFacts, PartitionFacts,
    PreambleFacts, SlotFacts,
};
pub use partition::{PartitionFault, show_partition};
pub use printing::{text_of_facts, text_of_partition};
pub use reading::read_facts;
pub use show::{ShowFault, show_flash};
