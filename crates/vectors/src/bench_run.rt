// Makes the bench run of a file, and compares its text with the one that its entry wants.
use crate::entry::Entry;
use listing::{MAX_TEXT, MEMORY_LENGTH};
use slices::front;
use std::io;

// Whether the bench run prints the wanted text; a difference is printed.
pub(crate) fn same_text(rt: &impl Print, entry: Entry, file: &[u8]) -> io::Result<bool> {
    let mut memory = [0u8; MEMORY_LENGTH];
    let mut text = [0u8; MAX_TEXT];
    let length = listing::listing(file, &mut memory, &mut text).unwrap_or(0);
    let got = front(&text, length);
    if got == entry.text() {
        return Ok(true);
    }
    print!(rt; "bench run differs: ")?;
    rt.write_all(entry.name())?;
    print!(rt; "\nwanted:\n")?;
    rt.write_all(entry.text())?;
    print!(rt; "got:\n")?;
    rt.write_all(got)?;
    Ok(false)
}
