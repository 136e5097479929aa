//! Readers and writers of one field of a byte format, and the definitions and lemmas by which a
//! format's laws follow field by field: what is read is spelled so, and what is spelled so is read.
#![tactic(auto)]

mod fields;
mod writing;

pub use fields::{bytes_at, check, u8_at, u16_at, u32_at, u64_at, u128_at};
pub use writing::{patch_u16, put_bytes, put_u8, put_u16, put_u32, put_u64, put_u128};
