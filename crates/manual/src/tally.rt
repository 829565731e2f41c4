// Examples of many cases: how many of them come out as the manual has them.
use std::io;

pub(crate) fn line<F: Fn(u64) -> bool + Drop>(
    rt: &impl Print,
    name: &str,
    cases: u64,
    what: &str,
    agrees: F,
) -> io::Result<()>
    requires { F.IsAlwaysCallable agrees }
{
    let count = (0..cases).filter(|case| agrees(*case)).count();
    println!(rt; "{name}: {count} of {cases} {what} as in the manual")
}
