// Sums, compares, tests, rotates and decimal adjust on bytes, and the PSL that each leaves.
#![tactic(auto, using(crate::proofs::RotateLaws::rotate_laws), unfolding(crate::specs::AluDefinitions::alu_definitions))]

ghost use Rattle.std.specs.Prelude.{◌≡◌, ◌<◌};
ghost use Rattle.alu.specs.Psl.{bit_of};
ghost use Rattle.alu.specs.Alu.{condition_code_of, sum_of, carry_of, digit_carry_of, overflow_of, sum_result_of, carry_in_of, load_result_of, compare_cc_of, compare_result_of, operation_result_of, test_cc_of, test_psl_of, rotate_result_of, rotate_left_of, rotate_right_of, adjust_digit_of, decimal_adjust_of};

use crate::psl::{self, ConditionCode};

// The operations on a register and an operand, by the manual's mnemonics. Each comes in four addressing modes.
#[derive(Clone, Copy, Debug, PartialEq, Eq)]
pub enum Operation {
    Lod,
    Eor,
    And,
    Ior,
    Add,
    Sub,
    Com,
}

// A result byte, and the PSL that it leaves. No result changes RS (the laws `operation_keeps_rs` and its like).
#[derive(Clone, Copy, Debug, PartialEq, Eq)]
pub struct AluResult {
    pub value: u8,
    pub psl: u8,
}

// CC without a branch: 1 if b is not zero, which is when `b + 255` reaches 256, plus 1 if b is negative. `(b != 0) as u8` is shorter,
// but with it a step takes more instructions of the processor on average (docs/DECISIONS.md, "CC by arithmetic").
fn condition_code(b: u8) -> ConditionCode
    ensures { result.number ≡ condition_code_of b }
{
    let nonzero = (b as u16 + 255) / 256;
    let sign = b as u16 / 128;
    ConditionCode {
        number: (nonzero + sign) as u8,
    }
}

// A sum of eight bits, and whether it carries out of bit 7.
#[derive(Clone, Copy)]
pub struct Sum {
    pub value: u8,
    pub carry: bool,
}

impl Sum {
    // A sum hands back value and carry together. The carry is recovered beside the value: a sum that wrapped is below what was
    // added to.
    fn of(a: u8, b: u8, k: bool) -> Sum
        ensures value { result.value ≡ sum_of a b (bit_of k) }
        ensures carry { bit_of result.carry ≡ carry_of a b (bit_of k) }
    {
        let t = a.wrapping_add(b);
        let value = t.wrapping_add(k as u8);
        Sum {
            value,
            carry: t < a || value < t,
        }
    }
}

fn digit_carry(a: u8, b: u8, k: bool) -> bool
    ensures { bit_of result ≡ digit_carry_of a b (bit_of k) }
{
    a % 16 + b % 16 + k as u8 >= 16
}

// The signed sum is out of range exactly if the carries into and out of bit 7 differ.
fn overflow(a: u8, b: u8, k: bool, out: bool) -> bool
    requires { bit_of out ≡ carry_of a b (bit_of k) }
    ensures { bit_of result ≡ overflow_of a b (bit_of k) }
{
    let into = a % 128 + b % 128 + k as u8 >= 128;
    into != out
}

fn sum_result(psl: u8, a: u8, b: u8, k: bool) -> AluResult
    ensures { result ≡ sum_result_of psl a b (bit_of k) }
{
    let s = Sum::of(a, b, k);
    let cc = condition_code(s.value);
    let idc = digit_carry(a, b, k);
    let ovf = overflow(a, b, k, s.carry);
    AluResult {
        value: s.value,
        psl: psl::with_arithmetic_bits(psl, cc, idc, ovf, s.carry),
    }
}

fn carry_in(psl: u8, other: bool) -> bool
    ensures { bit_of result ≡ carry_in_of psl (bit_of other) }
{
    if psl / 8 % 2 == 0 {
        other
    } else {
        psl % 2 == 1
    }
}

pub fn load_result(psl: u8, v: u8) -> AluResult
    ensures { result ≡ load_result_of psl v }
{
    let cc = condition_code(v);
    AluResult {
        value: v,
        psl: psl::with_cc(psl, cc),
    }
}

fn compare_cc(unsigned: bool, a: u8, b: u8) -> ConditionCode
    ensures { result.number ≡ compare_cc_of (bit_of unsigned) a b }
{
    if a == b {
        return ConditionCode { number: 0 };
    }
    let greater = if unsigned {
        b < a
    } else {
        b.cast_signed() < a.cast_signed()
    };
    ConditionCode {
        number: if greater { 1 } else { 2 },
    }
}

fn compare_result(psl: u8, a: u8, b: u8) -> AluResult
    ensures { result ≡ compare_result_of psl a b }
{
    let cc = compare_cc(psl / 2 % 2 == 1, a, b);
    AluResult {
        value: a,
        psl: psl::with_cc(psl, cc),
    }
}

pub fn operation_result(operation: Operation, psl: u8, a: u8, b: u8) -> AluResult
    ensures { result ≡ operation_result_of operation psl a b }
{
    match operation {
        Operation::Lod => load_result(psl, b),
        Operation::Eor => load_result(psl, a ^ b),
        Operation::And => load_result(psl, a & b),
        Operation::Ior => load_result(psl, a | b),
        Operation::Add => sum_result(psl, a, b, carry_in(psl, false)),
        Operation::Sub => sum_result(psl, a, 255 - b, carry_in(psl, true)),
        Operation::Com => compare_result(psl, a, b),
    }
}

fn test_cc(v: u8, mask: u8) -> ConditionCode
    ensures { result.number ≡ test_cc_of v mask }
{
    let both = v & mask;
    ConditionCode {
        number: if both == mask { 0 } else { 2 },
    }
}

pub fn test_psl(psl: u8, v: u8, mask: u8) -> u8
    ensures { result ≡ test_psl_of psl v mask }
{
    let cc = test_cc(v, mask);
    psl::with_cc(psl, cc)
}

fn rotate_result(psl: u8, a: u8, v: u8, c: bool) -> AluResult
    ensures { result ≡ rotate_result_of psl a v (bit_of c) }
{
    let cc = condition_code(v);
    AluResult {
        value: v,
        psl: psl::with_arithmetic_bits(psl, cc, v / 32 % 2 == 1, a / 128 != v / 128, c),
    }
}

pub fn rotate_left(psl: u8, a: u8) -> AluResult
    ensures { result ≡ rotate_left_of psl a }
{
    if psl / 8 % 2 == 0 {
        load_result(psl, a.rotate_left(1))
    } else {
        rotate_result(psl, a, a % 128 * 2 + psl % 2, a / 128 == 1)
    }
}

pub fn rotate_right(psl: u8, a: u8) -> AluResult
    ensures { result ≡ rotate_right_of psl a }
{
    if psl / 8 % 2 == 0 {
        load_result(psl, a.rotate_right(1))
    } else {
        rotate_result(psl, a, psl % 2 * 128 + a / 2, a % 2 == 1)
    }
}

fn adjust_digit(carry: bool, d: u8) -> u8
    requires { d < 16 }
    ensures value { result ≡ adjust_digit_of (bit_of carry) d }
    ensures upper_bound { result < 16 }
{
    if carry { d } else { (d + 10) % 16 }
}

pub fn decimal_adjust(psl: u8, a: u8) -> AluResult
    ensures { result ≡ decimal_adjust_of psl a }
{
    let high = adjust_digit(psl % 2 == 1, a / 16);
    let low = adjust_digit(psl / 32 % 2 == 1, a % 16);
    load_result(psl, high * 16 + low)
}
