// Single rounds until the pattern stops.
ghost use Rattle.std.specs.Prelude.{◌≡◌, eqb};
ghost use Rattle.supervisor.specs.Calls.{run, after_call};
ghost use Rattle.system.specs.System.{system};
ghost use Rattle.table.specs.Table.{slot_at};
ghost use Rattle.listing.specs.UntilStopped.{until_stopped};

use registers::Status;
use table::Table;

// The most rounds that are made.
const MAX_ROUNDS: u16 = 1000;

#[tactic(auto, unfolding(table::specs::Table::slot_at))]
fn is_running(table: Table) -> bool
    ensures { result ≡ eqb (slot_at table 0).state.status 1 }
{
    table.slots[0].state.status == Status::Running.number()
}

// One round. A refused one, which the bench run never makes, leaves the table.
fn make_round(table: Table, memory: &mut [u8]) -> Table
    ensures { system result memory.new ≡ after_call (run 1) (system table memory.old) }
{
    match system::run(table, memory, 1) {
        Ok(next) => next,
        Err(refused) => refused.table,
    }
}

// Makes single rounds until the pattern stops.
pub(crate) fn run_until_stopped(table: Table, memory: &mut [u8]) -> Table
    ensures { system result memory.new ≡ until_stopped 1000 (system table memory.old) }
{
    let mut next = table;
    for _round in 0..MAX_ROUNDS {
        if !is_running(next) {
            break;
        }
        next = make_round(next, memory);
    }
    next
}
