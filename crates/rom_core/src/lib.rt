//! The read-only data of a firmware flash: the map of its areas, and the GBB with the root key and the recovery key.
//!
//! - `map_locating` looks for the map, and `map_reading` reads it. `map_rows` has its rows, `map` the six areas of a boot and
//!   their checks, `area` one area, and `names` their names.
//! - `gbb` reads the GBB, and `gbb_parts` has its head.
//! - `layout` has all places and sizes, and `fault` what can be wrong.
#![tactic(auto)]

mod area;
mod fault;
mod gbb;
mod gbb_parts;
pub mod layout;
mod map;
mod map_locating;
mod map_reading;
mod map_rows;
mod names;

pub use area::Area;
pub use fault::{GbbFault, MapFault};
pub use gbb::{Gbb, read_gbb};
pub use map::Map;
pub use map_locating::locate;
pub use map_reading::read_map;
pub use names::before_nul;
