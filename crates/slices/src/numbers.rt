// Numbers of two and of four bytes, the high byte first.
ghost use Rattle.std.specs.Prelude.{◌≡◌};
ghost use Rattle.slices.specs.Numbers.{u16_at, u32_at, u16_bytes, u32_bytes, u16s_bytes};
ghost use Rattle.slices.specs.Slices.{copied};

use crate::slices::{byte, copy};

// The number of two bytes at `at`, high byte first; a byte from the end on counts as 0.
pub fn u16_at(s: &[u8], at: usize) -> u16
    ensures { result ≡ u16_at s.now at }
{
    if at < s.len() {
        return u16::from_be_bytes([byte(s, at), byte(s, at + 1)]);
    }
    0
}

// The number of four bytes at `at`, likewise.
pub fn u32_at(s: &[u8], at: usize) -> u32
    ensures { result ≡ u32_at s.now at }
{
    if at < s.len() {
        return u32::from_be_bytes([
            byte(s, at),
            byte(s, at + 1),
            byte(s, at + 2),
            byte(s, at + 3),
        ]);
    }
    0
}

// Puts a number into the two bytes from `at` on, high byte first: both of them, or none where they would pass the end.
pub fn put_u16(target: &mut [u8], at: usize, n: u16)
    ensures { target.new ≡ copied target.old at (u16_bytes n) }
{
    copy(target, at, &n.to_be_bytes());
}

// Puts a number into the four bytes from `at` on, likewise.
pub fn put_u32(target: &mut [u8], at: usize, n: u32)
    ensures { target.new ≡ copied target.old at (u32_bytes n) }
{
    copy(target, at, &n.to_be_bytes());
}

// Puts numbers one behind the other, each into two bytes: all of them, or none where they would pass the end.
#[tactic(auto, using(crate::specs::SliceLaws::copied_left, crate::specs::NumberLaws::u16s_length))]
pub fn put_u16s(target: &mut [u8], at: usize, numbers: &[u16])
    ensures { target.new ≡ copied target.old at (u16s_bytes numbers.now) }
{
    if target.len() < at {
        return;
    }
    if (target.len() - at) / 2 < numbers.len() {
        return;
    }
    for (i, n) in numbers.iter().enumerate() {
        put_u16(target, at + 2 * i, *n);
    }
}
