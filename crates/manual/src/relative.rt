// Relative addresses around the ends of a page.
ghost use Rattle.std.specs.Prelude.{◌<◌, ◌+◌};

use crate::machine::Example;
use crate::print;
use crate::print::verdict;
use std::io;

// A two-byte instruction at 2002h, in page 1, so that a branch to page 0 shows.
fn in_page_1(code: u8, displacement: u8) -> Example {
    let mut window = [0u8; 0x2004];
    window[0x2002] = code;
    window[0x2003] = displacement;
    Example::at(0x2002).step(&mut window)
}

fn branch(rt: &impl Print, name: &str, displacement: u8, target: u16) -> io::Result<()> {
    let counter = in_page_1(0x9B, displacement).counter();
    let verdict = verdict(counter == target);
    println!(rt; "Zero Branch Relative, {name}: to {counter}: {verdict}")
}

// A call stores the address of the byte after it, at SP 1.
fn call(rt: &impl Print, name: &str, displacement: u8, target: u16) -> io::Result<()> {
    let called = in_page_1(0xBB, displacement);
    println!(rt;
        "Zero Branch to Subroutine, {name}: to {}, back to {}: {}",
        called.counter(),
        called.first_return(),
        verdict(called.counter() == target && called.first_return() == 0x2004 && called.sp() == 1)
    )
}

// "Zero Branch Relative" and "Zero Branch to Subroutine, Relative": the displacement is from address 0.
pub(crate) fn zero_branches(rt: &impl Print) -> io::Result<()> {
    branch(rt, "ZBRR -8", 0x78, 8184)?;
    branch(rt, "ZBRR +52", 52, 52)?;
    call(rt, "ZBSR -10", 0x76, 8182)?;
    call(rt, "ZBSR 31", 31, 31)
}

// LODR,R2 at an address of page 0, and H'67' at another. Every other byte of the page is zero.
fn load_relative(instruction: u16, displacement: u8, operand: u16) -> Example
    requires instruction { instruction + 1 < 0x2000 }
    requires operand { operand < 0x2000 }
{
    let mut window = [0u8; 0x2000];
    window[instruction as usize] = 0x0A;
    window[instruction as usize + 1] = displacement;
    window[operand as usize] = 0x67;
    Example::at(instruction).step(&mut window)
}

// Appendix F, note 5: relative addressing is modulo 8K. The first is the manual's example, the second its "similarly".
pub(crate) fn across_the_page(rt: &impl Print) -> io::Result<()> {
    let over_the_top = load_relative(0x1FFC, 0x0E, 0x000C);
    print::r2(
        rt,
        "Appendix F, note 5, LODR,R2 $+16 at 1FFC",
        over_the_top,
        0x67,
    )?;
    let under_the_bottom = load_relative(0x0004, 0x6E, 0x1FF4);
    print::r2(
        rt,
        "Appendix F, note 5, LODR,R2 $-16 at 0004",
        under_the_bottom,
        0x67,
    )
}
