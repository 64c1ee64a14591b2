//! Numbers and checksums as they stand in the bytes of firmware images: little-endian fields, CRC-8 and CRC-32.
#![tactic(auto)]

mod checksums;
mod fields;
mod reflected;

pub use checksums::crc8;
pub use fields::{put_u16, put_u32, put_u64, u16_at, u32_at, u64_at};
pub use reflected::crc32;
