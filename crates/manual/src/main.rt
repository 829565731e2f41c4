// Runs the manual's own examples on the machine, and writes a line for each: what came out, and whether the manual says the same.
#![tactic(auto)]

mod branch;
mod carry;
mod decimal;
mod index;
mod indirect;
mod machine;
mod parity;
mod print;
mod relative;
mod tally;

use std::io;

fn main(rt: HostRuntime) -> io::Result<()> {
    indirect::examples(&rt)?;
    carry::overflow(&rt)?;
    tally::line(&rt, "Carry, borrow table", 8, "rows", carry::row_agrees)?;
    tally::line(
        &rt,
        "Decimal Adjust Register, BCD addition",
        10000,
        "pairs",
        decimal::sum_agrees,
    )?;
    tally::line(
        &rt,
        "Decimal Adjust Register, BCD subtraction",
        10000,
        "pairs",
        decimal::difference_agrees,
    )?;
    tally::line(
        &rt,
        "Decimal Adjust Register, table",
        1024,
        "cases",
        decimal::adjust_agrees,
    )?;
    tally::line(
        &rt,
        "Condition Code Usage, parity program",
        256,
        "bytes",
        |n| { parity::byte_agrees((n % 256) as u8) },
    )?;
    relative::zero_branches(&rt)?;
    relative::across_the_page(&rt)?;
    tally::line(
        &rt,
        "Appendix F, note 4, Branch on Incrementing Register",
        256,
        "values",
        |n| {
            let value = (n % 256) as u8;
            branch::stepped_agrees(0xD9, value, value.wrapping_add(1))
        },
    )?;
    tally::line(
        &rt,
        "Appendix F, note 4, Branch on Decrementing Register",
        256,
        "values",
        |n| {
            let value = (n % 256) as u8;
            branch::stepped_agrees(0xF9, value, value.wrapping_sub(1))
        },
    )?;
    index::wrapping_index(&rt)?;
    tally::line(
        &rt,
        "Appendix F, note 9, unconditional branches",
        16,
        "cases",
        branch::unconditional_agrees,
    )
}
