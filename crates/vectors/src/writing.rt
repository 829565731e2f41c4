// Writes the pattern of an accepted file again: the same file must come out.
use crate::entry::Entry;
use common::Refusal;
use listing::MAX_FILE;
use pattern::Parameters;
use slices::{copy, front};
use std::io;

// Writes the pattern of `file` to the front of `buffer`, and answers the length.
fn write_again(file: &[u8], parameters: Parameters, buffer: &mut [u8]) -> Result<usize, Refusal> {
    let mut window = [0u8; 32768];
    copy(&mut window, 0, pattern::code_body(file));
    let layout = parameters.layout;
    pattern::write(
        parameters,
        front(&window, layout.window as usize),
        pattern::input_body(file),
        buffer,
    )
}

// Whether the file comes out again, or is refused; a difference is printed.
pub(crate) fn rewrites_same(rt: &impl Print, entry: Entry, file: &[u8]) -> io::Result<bool> {
    let Ok(parameters) = pattern::read(file) else {
        return Ok(true);
    };
    let mut buffer = [0u8; MAX_FILE];
    let length = write_again(file, parameters, &mut buffer).unwrap_or(0);
    if front(&buffer, length) == file {
        return Ok(true);
    }
    print!(rt; "written again differs: ")?;
    rt.write_all(entry.name())?;
    println!(rt;
        "\nwanted the same file, of {} bytes\ngot another, of {length} bytes",
        file.len()
    )?;
    Ok(false)
}
