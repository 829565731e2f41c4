// Reads a file, and compares the answer and both bodies with those that its entry wants.
use crate::entry::Entry;
use pattern::Parameters;
use std::{fmt, io};

// What an entry wants of its file, or what comes of the file: the number of the refusal, 0 for none, which stands so in the data; the
// parameters, which are zeros for a refused file; and the bodies of `PC` and `PI`.
#[derive(Clone, Copy, PartialEq, Eq)]
struct Reading<'a> {
    refusal: u16,
    parameters: Parameters,
    code: &'a [u8],
    input: &'a [u8],
}

impl fmt::Display for Reading<'_> {
    fn fmt<W: fmt::Write>(&self, f: &mut fmt::Formatter<W>) -> fmt::Result {
        let parameters = self.parameters;
        let layout = parameters.layout;
        write!(
            f,
            "refusal {} parameters {} {} {} {} {} {} bodies {} {}",
            self.refusal,
            layout.window,
            layout.input,
            layout.output,
            parameters.start.0,
            parameters.quantum,
            layout.locked,
            self.code.len(),
            self.input.len()
        )
    }
}

// Whether the file is read as its entry wants; a difference is printed.
pub(crate) fn same_reading(rt: &impl Print, entry: Entry, file: &[u8]) -> io::Result<bool> {
    let want = Reading {
        refusal: entry.refusal(),
        parameters: entry.parameters(),
        code: entry.code(file),
        input: entry.input(file),
    };
    let (refusal, parameters) = match pattern::read(file) {
        Ok(parameters) => (0, parameters),
        Err(refusal) => (refusal.number() as u16, pattern::decode_parameters(b"")),
    };
    let got = Reading {
        refusal,
        parameters,
        code: pattern::code_body(file),
        input: pattern::input_body(file),
    };
    if want == got {
        return Ok(true);
    }
    print!(rt; "read differs: ")?;
    rt.write_all(entry.name())?;
    println!(rt; "\nwanted {want}\ngot {got}")?;
    Ok(false)
}
