// Appendix F, notes 1 and 2: an index register is stepped before it is added, 255 is followed by 0, and 0 preceded by 255.
use crate::machine::Example;
use crate::print::verdict;
use std::io;

// LODA,R0 H'10',R1 with an index control; 10h holds A1h and 10Fh holds A2h.
fn load_indexed(control: u8, index: u8) -> Example {
    let mut window = [0u8; 0x110];
    window[..3].copy_from_slice(&[0x0D, control, 0x10]);
    window[0x10] = 0xA1;
    window[0x10F] = 0xA2;
    Example::at(0).with_r1(index).step(&mut window)
}

fn print_index_and_r0(
    rt: &impl Print,
    name: &str,
    loaded: Example,
    index: u8,
    byte: u8,
) -> io::Result<()> {
    println!(rt;
        "Appendix F, note 2, {name}: {:02X}, R0 {:02X}: {}",
        loaded.r1(),
        loaded.r0(),
        verdict(loaded.r1() == index && loaded.r0() == byte)
    )
}

pub(crate) fn wrapping_index(rt: &impl Print) -> io::Result<()> {
    print_index_and_r0(
        rt,
        "index FF and one more",
        load_indexed(0x20, 0xFF),
        0,
        0xA1,
    )?;
    print_index_and_r0(
        rt,
        "index 00 and one less",
        load_indexed(0x40, 0),
        0xFF,
        0xA2,
    )
}
