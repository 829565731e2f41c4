// What several lines have in common.
use crate::machine::Example;
use std::io;

// A line's end: whether the manual says the same.
pub(crate) fn verdict(agrees: bool) -> &'static str {
    if agrees {
        "as in the manual"
    } else {
        "NOT as in the manual"
    }
}

// What R2 holds, against what the manual loads into it.
pub(crate) fn r2(rt: &impl Print, name: &str, example: Example, expected: u8) -> io::Result<()> {
    let r2 = example.r2();
    let verdict = verdict(r2 == expected);
    println!(rt; "{name}: R2 {r2:02X}: {verdict}")
}
