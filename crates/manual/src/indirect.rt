// "Indirect Addressing": both examples load H'67' into R2 through the pointer H'128'.
ghost use Rattle.std.specs.Prelude.{◌≤◌, ◌<◌, length};

use crate::machine::Example;
use crate::print;
use std::io;

// Runs an instruction at 10h that goes through the pointer at that address: ACON H'128', and DATA H'67' at 128h.
fn through_pointer(instruction: &[u8], pointer: usize) -> Example
    requires instruction { length instruction.now ≤ 3 }
    requires pointer { pointer < 0x100 }
{
    let mut window = [0u8; 0x129];
    window[0x10..0x10 + instruction.len()].copy_from_slice(instruction);
    window[pointer..pointer + 2].copy_from_slice(&[0x01, 0x28]);
    window[0x128] = 0x67;
    Example::at(0x10).step(&mut window)
}

pub(crate) fn examples(rt: &impl Print) -> io::Result<()> {
    // LODA,R2 *H'51'
    let absolute = through_pointer(&[0x0E, 0x80, 0x51], 0x51);
    print::r2(rt, "Indirect Addressing, example 1", absolute, 0x67)?;
    // LODR,R2 *H'17'
    let relative = through_pointer(&[0x0A, 0x85], 0x17);
    print::r2(rt, "Indirect Addressing, example 2", relative, 0x67)
}
