//! The nvdata record in two pages of the flash: which record stands, and another one in its place. A flash that fails at
//! any call of a save leaves the old record or the new one, where the bytes that it left torn do not pass their checks.
//!
//! - `state` is what the store knows of its pages.
//! - `page` reads one page, and makes the head of one.
//! - `loading` reads both pages, `standing` tells whether a record stands, and `saving` stores one.
#![tactic(auto)]

mod loading;
mod page;
mod saving;
mod standing;
mod state;

pub use loading::load;
pub use page::{PageHead, page_head};
pub use saving::save;
pub use state::NvState;
