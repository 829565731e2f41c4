// "Decimal Adjust Register": BCD arithmetic on two packed digits, for every pair of two-digit numbers.
ghost use Rattle.std.specs.Prelude.{◌<◌};

use crate::machine::Example;

fn bcd(n: u64) -> u8 {
    (n / 10 % 10 * 16 + n % 10) as u8
}

// The two numbers of a pair.
fn numbers(pair: u64) -> (u64, u64)
    ensures first { result.0 < 100 }
    ensures second { result.1 < 100 }
{
    (pair / 100 % 100, pair % 100)
}

// Addition: 66h is added to the augend, then the addend, then DAR. C is the hundred.
pub(crate) fn sum_agrees(pair: u64) -> bool {
    let (a, b) = numbers(pair);
    let sum = Example::at(0)
        .with_r0(bcd(a))
        .run(&mut [0x84, 0x66, 0x84, bcd(b), 0x94], 3);
    sum.r0() == bcd((a + b) % 100) && sum.carry() == (100 <= a + b)
}

// Subtraction, then DAR. The numbers are of sign and magnitude: the larger is the minuend, so that C tells of no borrow.
pub(crate) fn difference_agrees(pair: u64) -> bool {
    let (a, b) = numbers(pair);
    let difference = Example::at(0)
        .with_r0(bcd(a.max(b)))
        .run(&mut [0xA4, bcd(a.min(b)), 0x94], 2);
    difference.r0() == bcd(a.abs_diff(b)) && difference.carry()
}

// The table of what DAR adds: a digit gets ten if its carry, C for the high one and IDC for the low one, is 0.
fn digit(value: u64, carry: bool) -> u64
    ensures { result < 16 }
{
    if carry {
        value % 16
    } else {
        (value % 16 + 10) % 16
    }
}

// A case is a byte, C (bit 8) and IDC (bit 9, bit 5 of PSL).
pub(crate) fn adjust_agrees(case: u64) -> bool {
    let value = case % 256;
    let c = case / 256 % 2;
    let idc = case / 512 % 2;
    let adjusted = Example::at(0)
        .with_r0(value as u8)
        .with_psl((idc * 32 + c) as u8)
        .step(&mut [0x94]);
    adjusted.r0() as u64 == digit(value / 16, c == 1) * 16 + digit(value % 16, idc == 1)
}
