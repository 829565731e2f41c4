// A script as it runs: each entry changes it, makes a call or looks at its state.
use crate::comparison::Comparison;
use crate::crc::crc32;
use crate::entry::Entry;
use crate::fields::{same_free, same_report, same_slots, set_field};
use crate::files::{compare_read, compare_write};
use crate::kind::Kind;
use crate::lending::drain_loan;
use common::{Location, Refusal};
use slices::{front, rest, u32_at};
use table::{RefusedCall, Table};

// How many bytes a report has in an entry: eleven numbers of two.
const REPORT_LENGTH: usize = 22;

// Its table, the table before the last group of pokes, and how much memory it lends.
#[derive(Clone, Copy)]
pub(crate) struct Script {
    table: Table,
    saved: Table,
    lent_length: u32,
}

// A call that fills a buffer of the entry's length, which starts as EEh throughout, as the script's, and is compared whole.
fn compare_filled<F: FnOnce(&mut [u8]) -> Result<usize, Refusal>>(
    entry: Entry,
    fill: F,
) -> Comparison
    requires { F.IsAlwaysCallable fill }
{
    let mut room = [0xEEu8; 40];
    let Some(buffer) = room.get_mut(..entry.number() as usize) else {
        return Comparison::without_call(false);
    };
    let answer = fill(buffer);
    let same = answer.unwrap_or(0) == entry.count() as usize && &*buffer == entry.bytes();
    Comparison::of_call(entry, answer.err(), same)
}

impl Script {
    // The table is all zero, and no memory is lent.
    pub(crate) fn new() -> Script {
        let table = Table::new(0).unwrap_or_else(|refused| refused.table);
        Script {
            table,
            saved: table,
            lent_length: 0,
        }
    }

    // One entry, with the memory that the script lends the front of.
    pub(crate) fn run_entry(&mut self, memory: &mut [u8], entry: Entry) -> Comparison {
        let Ok(kind) = entry.kind() else {
            return Comparison::without_call(false);
        };
        match kind {
            Kind::NewScript => {
                memory.fill(0);
                *self = Script::new();
            }
            Kind::Lend => self.lent_length = entry.number(),
            Kind::Poke => self.poke(entry),
            Kind::Unpoke => self.table = self.saved,
            Kind::State => return Comparison::without_call(self.is_same_state(memory, entry)),
            Kind::Free => {
                return Comparison::without_call(same_free(
                    &self.table,
                    entry.number(),
                    entry.bytes(),
                ));
            }
            _ => {
                return match memory.get_mut(..self.lent_length as usize) {
                    Some(lent) => self.call(kind, lent, entry),
                    None => Comparison::without_call(false),
                };
            }
        }
        Comparison::without_call(true)
    }

    // An unpoke goes back to the table before the first poke of its group.
    fn poke(&mut self, entry: Entry) {
        if !entry.flag() {
            self.saved = self.table;
        }
        set_field(&mut self.table, entry);
    }

    // The memory, the two numbers about free bytes where the entry has them, and the slots.
    fn is_same_state(&self, memory: &[u8], entry: Entry) -> bool {
        let want = entry.bytes();
        crc32(front(memory, 65536)) == entry.number()
            && (!entry.flag() || same_free(&self.table, u32_at(want, 0), rest(want, 4)))
            && same_slots(&self.table, rest(want, 8))
    }

    // A call, with the memory that it is lent.
    fn call(&mut self, kind: Kind, memory: &mut [u8], entry: Entry) -> Comparison {
        let table = self.table;
        let slot = entry.slot();
        match kind {
            Kind::New => self.replace(entry, Table::new(entry.number() as usize)),
            Kind::Load => {
                let location = Location(entry.number());
                self.replace(
                    entry,
                    supervisor::load(table, memory, slot, location, entry.bytes()),
                )
            }
            Kind::Unload => self.replace(entry, supervisor::unload(table, memory, slot)),
            Kind::Feed => self.replace(entry, supervisor::feed(table, memory, slot, entry.bytes())),
            Kind::Run => self.replace(entry, supervisor::run(table, memory, entry.number_u16())),
            Kind::Drain => compare_filled(entry, |buffer| self.drain(memory, slot, buffer)),
            Kind::DrainLent => self.drain_lent(memory, entry),
            Kind::Backlog => compare_filled(entry, |buffer| queries::backlog(table, buffer)),
            Kind::Report => self.compare_report(entry),
            Kind::Fit => self.compare_fit(entry),
            Kind::Read => compare_read(entry),
            Kind::Write => compare_write(entry),
            // No calls.
            _ => Comparison::without_call(false),
        }
    }

    // The table that a call hands back replaces the script's, also when the call is refused.
    fn replace(&mut self, entry: Entry, answer: Result<Table, RefusedCall>) -> Comparison {
        let (table, refusal) = match answer {
            Ok(table) => (table, None),
            Err(refused) => (refused.table, Some(refused.refusal)),
        };
        self.table = table;
        Comparison::of_call(entry, refusal, true)
    }

    fn drain(&mut self, memory: &[u8], slot: usize, buffer: &mut [u8]) -> Result<usize, Refusal> {
        match supervisor::drain(self.table, memory, slot, buffer) {
            Ok(drained) => {
                self.table = drained.table;
                Ok(drained.count)
            }
            Err(refused) => {
                self.table = refused.table;
                Err(refused.refusal)
            }
        }
    }

    // A drain over one slot, lent.
    fn drain_lent(&mut self, memory: &[u8], entry: Entry) -> Comparison {
        let Some(slot) = self.table.slots.get_mut(entry.slot()) else {
            return Comparison::without_call(false);
        };
        compare_filled(entry, |buffer| {
            let answer = drain_loan(*slot, memory, buffer);
            *slot = answer.slot;
            answer.drained
        })
    }

    // The entry of a refused report has zeros for it.
    fn compare_report(&self, entry: Entry) -> Comparison {
        let answer = queries::report(self.table, entry.slot());
        let same = match answer {
            Ok(report) => same_report(report, entry.bytes()),
            Err(_) => front(entry.bytes(), REPORT_LENGTH)
                .iter()
                .all(|byte| *byte == 0),
        };
        Comparison::of_call(entry, answer.err(), same)
    }

    // The start is 0 when refused.
    fn compare_fit(&self, entry: Entry) -> Comparison {
        let answer = queries::fit(self.table, entry.size());
        let start = answer.map_or(0, |location| location.0);
        Comparison::of_call(entry, answer.err(), start == entry.count() as u32)
    }
}
