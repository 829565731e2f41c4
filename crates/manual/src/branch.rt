// Branches on a stepped register, and those that are always taken.
use crate::machine::Example;

// "Branch on Incrementing Register", "Branch on Decrementing Register" and appendix F ("Notes About the 2650 Processor"), note 4:
// the register is stepped first, from 255 to 0 and back, and the branch is not taken exactly if it is then zero. From address 0 to 10h.
pub(crate) fn stepped_agrees(code: u8, value: u8, stepped: u8) -> bool {
    let after = Example::at(0).with_r1(value).step(&mut [code, 14]);
    let target = if stepped == 0 { 2 } else { 16 };
    after.r1() == stepped && after.counter() == target
}

// An instruction of three bytes, or of two and one more, goes from address 0 to 10h; a call adds one to SP.
fn reaches_10h(cc: u8, mut instruction: [u8; 3], sp: u8) -> bool {
    let after = Example::at(0).with_psl(cc % 4 * 64).step(&mut instruction);
    after.counter() == 16 && after.sp() == sp
}

// Appendix F, note 9: BCTR, BCTA, BSTR and BSTA with the value 3, whatever CC is. A case is an instruction and a CC.
pub(crate) fn unconditional_agrees(case: u64) -> bool {
    let cc = (case % 4) as u8;
    match case / 4 {
        0 => reaches_10h(cc, [0x1B, 14, 0], 0),
        1 => reaches_10h(cc, [0x1F, 0, 16], 0),
        2 => reaches_10h(cc, [0x3B, 14, 0], 1),
        _ => reaches_10h(cc, [0x3F, 0, 16], 1),
    }
}
