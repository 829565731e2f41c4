// Reads every pattern file of data/vectors.bin, writes each accepted one again and makes its bench run, and compares the answers
// with those that the file's entry wants. A difference is printed. make_data.py gives the layout of an entry.
#![tactic(auto)]

mod bench_run;
mod entry;
mod packing;
mod reading;
mod writing;

use crate::bench_run::same_text;
use crate::entry::Entry;
use crate::packing::unpack;
use crate::reading::same_reading;
use crate::writing::rewrites_same;
use filling::read_full;
use slices::{front, rest};
use std::fs::File;
use std::{fmt, io};

// A vector is different if the reader, the writer or the bench run answers something else than its entry wants.
#[derive(Clone, Copy, Default)]
struct Tally {
    vectors: u64,
    accepted: u64,
    refused: u64,
    different: u64,
}

impl Tally {
    // With one vector more.
    fn counted(self, accepted: bool, same: bool) -> Tally {
        Tally {
            vectors: self.vectors.wrapping_add(1),
            accepted: self.accepted.wrapping_add(accepted as u64),
            refused: self.refused.wrapping_add(!accepted as u64),
            different: self.different.wrapping_add(!same as u64),
        }
    }
}

impl fmt::Display for Tally {
    fn fmt<W: fmt::Write>(&self, f: &mut fmt::Formatter<W>) -> fmt::Result {
        write!(
            f,
            "{} vectors: {} files accepted and written again, {} refused; {} bench runs; {} different",
            self.vectors, self.accepted, self.refused, self.vectors, self.different
        )
    }
}

// The tally with one entry more. All comparisons are made, so that each prints its difference.
fn compare(rt: &impl Print, entry: Entry, tally: Tally) -> io::Result<Tally> {
    let mut space = [0u8; 65536];
    let size = unpack(entry.packed(), &mut space);
    let file = front(&space, size);
    let whole = entry.is_whole();
    if !whole {
        println!(rt; "the data ends inside an entry")?;
    }
    let same = whole
        & same_reading(rt, entry, file)?
        & rewrites_same(rt, entry, file)?
        & same_text(rt, entry, file)?;
    Ok(tally.counted(pattern::read(file).is_ok(), same))
}

fn compare_all(rt: &impl Print, data: &[u8]) -> io::Result<Tally> {
    let mut tally = Tally::default();
    let mut entries = data;
    while !entries.is_empty() {
        let entry = Entry { bytes: entries };
        tally = compare(rt, entry, tally)?;
        entries = rest(entries, entry.length());
    }
    Ok(tally)
}

fn main(rt: HostRuntime) -> io::Result<()> {
    let file = File::open(&rt, "vectors.bin")?;
    let mut data = [0u8; 262144];
    let n = read_full(file, &mut data)?;
    let tally = compare_all(&rt, front(&data, n))?;
    println!(rt; "{tally}")
}
