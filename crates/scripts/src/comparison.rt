// What came of the entries, one by one and in all.
use crate::entry::Entry;
use crate::kind::Kind;
use common::Refusal;
use std::{fmt, io};

// Whether an entry's answer is the wanted one, and why its call was refused, if it was.
#[derive(Clone, Copy)]
pub(crate) struct Comparison {
    same: bool,
    refusal: Option<Refusal>,
}

impl Comparison {
    // Of an entry that is no call, or that asks for more than this program has room for.
    pub(crate) fn without_call(same: bool) -> Comparison {
        Comparison {
            same,
            refusal: None,
        }
    }

    // The refusal beside the wanted one, where the rest of the answer has been compared.
    pub(crate) fn of_call(entry: Entry, refusal: Option<Refusal>, same_rest: bool) -> Comparison {
        Comparison {
            same: same_rest && number(refusal) as u16 == entry.refusal(),
            refusal,
        }
    }
}

// A refusal's number, 0 for none.
fn number(refusal: Option<Refusal>) -> u8 {
    refusal.map_or(0, |refusal| refusal.number())
}

#[derive(Clone, Copy, Default)]
pub(crate) struct Tally {
    scripts: u64,
    accepted: u64,
    refused: u64,
    states: u64,
    different: u64,
}

impl Tally {
    // Counts an entry; one that differs is printed.
    pub(crate) fn add(
        &mut self,
        rt: &impl Print,
        entry: Entry,
        comparison: Comparison,
    ) -> io::Result<()> {
        self.count(entry, comparison);
        if comparison.same {
            return Ok(());
        }
        let script = self.scripts;
        let line = entry.line();
        let wanted = entry.refusal();
        let answered = number(comparison.refusal);
        println!(rt; "differs: script {script}, line {line}, wanted {wanted}, answered {answered}")
    }

    fn count(&mut self, entry: Entry, comparison: Comparison) {
        match entry.kind() {
            Ok(Kind::NewScript) => self.scripts = self.scripts.wrapping_add(1),
            Ok(Kind::State) => self.states = self.states.wrapping_add(1),
            Ok(Kind::Lend | Kind::Poke | Kind::Unpoke | Kind::Free) => {}
            _ => match comparison.refusal {
                Some(_) => self.refused = self.refused.wrapping_add(1),
                None => self.accepted = self.accepted.wrapping_add(1),
            },
        }
        if !comparison.same {
            self.different = self.different.wrapping_add(1);
        }
    }
}

impl fmt::Display for Tally {
    fn fmt<W: fmt::Write>(&self, f: &mut fmt::Formatter<W>) -> fmt::Result {
        write!(
            f,
            "{} scripts: {} calls accepted, {} refused, {} states compared, {} different",
            self.scripts, self.accepted, self.refused, self.states, self.different
        )
    }
}
