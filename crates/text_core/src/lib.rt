//! Texts that are put together on the stack, for programs that print without taking memory.
#![tactic(auto)]

mod text;

pub use text::Text;
