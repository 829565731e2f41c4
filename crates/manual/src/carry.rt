// "Overflow (OVF)" and "Carry (C)".
use crate::machine::Example;
use crate::print::verdict;
use std::io;

// +124 added to +64 gives 10111100, and OVF is set: LODI,R0 124; ADDI,R0 64.
pub(crate) fn overflow(rt: &impl Print) -> io::Result<()> {
    let sum = Example::at(0).run(&mut [0x04, 124, 0x84, 64], 2);
    println!(rt;
        "Overflow, 124 + 64: R0 {:02X}, OVF {}: {}",
        sum.r0(),
        sum.overflow() as u8,
        verdict(sum.r0() == 0xBC && sum.overflow())
    )
}

// The low order bit of the result, as the table prints it: for a row, bit 2 is the minuend, bit 1 the subtrahend, bit 0 the carry.
fn printed_bit(row: u64) -> u8 {
    match row {
        0 | 3 | 5 | 6 => 1,
        _ => 0,
    }
}

// A row of the table: SUBI,R0 with WC (bit 3 of PSL) set and C as the row has it.
pub(crate) fn row_agrees(row: u64) -> bool {
    let difference = Example::at(0)
        .with_r0((row / 4 % 2) as u8)
        .with_psl(8 + (row % 2) as u8)
        .step(&mut [0xA4, (row / 2 % 2) as u8]);
    difference.r0() % 2 == printed_bit(row)
}
