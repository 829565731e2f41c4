// PSL with some of its fields changed.
ghost use Rattle.std.specs.Prelude.{◌≡◌, ◌<◌};
ghost use Rattle.alu.specs.Psl.{bit_of, with_cc, with_arithmetic_bits};

// CC: 0, 1 or 2. It is a number and no enum, since `condition_code` reckons it without a branch.
#[derive(Clone, Copy)]
pub struct ConditionCode {
    pub number: u8,
    ghost in_range: { number < 3 },
}

pub(crate) fn with_cc(psl: u8, cc: ConditionCode) -> u8
    ensures { result ≡ with_cc psl cc.number }
{
    cc.number * 64 + psl % 64
}

pub(crate) fn with_arithmetic_bits(psl: u8, cc: ConditionCode, idc: bool, ovf: bool, c: bool) -> u8
    ensures { result ≡ with_arithmetic_bits psl cc.number (bit_of idc) (bit_of ovf) (bit_of c) }
{
    cc.number * 64 + idc as u8 * 32 + psl / 8 % 4 * 8 + ovf as u8 * 4 + psl / 2 % 2 * 2 + c as u8
}
