// Small total functions on byte slices: places and counts past the end are answered, not refused.
#![tactic(auto)]

mod numbers;
mod slices;

pub use numbers::{put_u16, put_u16s, put_u32, u16_at, u32_at};
pub use slices::{byte, copy, fill, front, part, put_byte, rest};
