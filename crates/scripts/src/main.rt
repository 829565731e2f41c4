// Runs the scripts of data/scripts.bin through the operations, and compares each answer, each buffer and each state with what
// the script wants. make_data.py gives the layout of an entry.
#![tactic(auto)]

mod comparison;
mod crc;
mod entry;
mod fields;
mod files;
mod kind;
mod lending;
mod script;

use crate::comparison::Tally;
use crate::entry::Entry;
use crate::script::Script;
use filling::read_full;
use slices::{front, rest};
use std::fs::File;
use std::io;
use std::io::Read;

// The memory has one byte more than the longest one, so that a script can lend too much.
fn run_all(rt: &impl Print, entries: &[u8]) -> io::Result<Tally> {
    let mut memory = [0u8; 65537];
    let mut tally = Tally::default();
    let mut script = Script::new();
    let mut left = entries;
    while !left.is_empty() {
        let entry = Entry::at_front(left);
        let comparison = script.run_entry(&mut memory, entry);
        tally.add(rt, entry, comparison)?;
        left = rest(left, entry.length());
    }
    Ok(tally)
}

// The buffer takes the whole file.
fn run_file(rt: &impl Print, file: impl Read + Drop, buffer: &mut [u8]) -> io::Result<Tally> {
    let n = read_full(file, buffer)?;
    run_all(rt, front(buffer, n))
}

fn main(rt: HostRuntime) -> io::Result<()> {
    let file = File::open(&rt, "scripts.bin")?;
    let mut buffer = [0u8; 655360];
    let tally = run_file(&rt, file, &mut buffer)?;
    println!(rt; "{tally}")
}
