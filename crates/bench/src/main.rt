// Document 01's bench run: reads a pattern file from standard input and prints its text.
#![tactic(auto)]

use filling::read_full;
use listing::{MAX_FILE, MAX_TEXT, MEMORY_LENGTH, listing};
use slices::front;
use std::io;

fn main(rt: HostRuntime) -> io::Result<()> {
    // One byte more than the longest file, so that a longer one is seen as such.
    let mut file = [0u8; MAX_FILE + 1];
    let n = read_full(rt.stdin(), &mut file)?;
    let mut memory = [0u8; MEMORY_LENGTH];
    let mut text = [0u8; MAX_TEXT];
    // The memory and the buffer have their lengths, so that it is not refused.
    let length = listing(front(&file, n), &mut memory, &mut text).unwrap_or(0);
    rt.write_all(front(&text, length))
}
