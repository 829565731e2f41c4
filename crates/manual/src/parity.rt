// "Condition Code Usage": the parity of the byte at CHAR, by the program as printed. It has WC EQU H'04', which is OVF's bit;
// PSL is zero before it runs, so that WC is clear all the same.
use crate::machine::Example;

// Where the program halts: EVEN is at 13h and ODD at 14h, and the counter is past the HALT.
const EVEN: u16 = 0x14;

const ODD: u16 = 0x15;

fn halts_at(char: u8) -> u16 {
    let mut window = [
        char, // CHAR  DATA
        0x75, 0x04, // CPSL WC
        0x06, 0xF8, // LODI,R2 -8
        0xA0, // SUBZ R0
        0x09, 0x78, // LODR,R1 CHAR
        0x9A, 0x02, // LOOP  BCFR,NEG GO1
        0x84, 0x01, // ADDI,R0 +1
        0xD1, // GO1  RRL,R1
        0xDA, 0x79, // BIRR,R2 LOOP
        0xF4, 0x01, // TMI,R0 H'01'
        0x18, 0x01, // BCTR,EQ ODD
        0x40, // EVEN  HALT
        0x40, // ODD  HALT
    ];
    Example::at(1).run(&mut window, 64).counter()
}

pub(crate) fn byte_agrees(char: u8) -> bool {
    halts_at(char)
        == if char.count_ones() % 2 == 0 {
            EVEN
        } else {
            ODD
        }
}
