// Running: rounds in which each slot, in rising number, takes its quantum in steps (document 01's passes).
ghost use Rattle.std.specs.Prelude.{true, ◌≡◌, ◌≤◌, length};
ghost use Rattle.slices.specs.Slices.{copied};
ghost use Rattle.system.specs.System.{answer_outcome, system, machine_bytes};
ghost use Rattle.system.specs.Running.{after_quantum, after_run, run_outcome_of};
ghost use Rattle.table.specs.Table.{partition_end};
ghost use Rattle.table.specs.Sound.{table_sound};

use crate::conditions::check_system;
use registers::{State, Status};
use table::{RefusedCall, Slot, Table};

// One slot's quantum: its machine is lent its partition's bytes and nothing else.
fn run_quantum(slot: Slot, memory: &mut [u8]) -> State
    requires { partition_end slot.partition ≤ length memory.old }
    ensures value { result ≡ (after_quantum slot memory.old).state }
    ensures memory_after { memory.new ≡ copied memory.old slot.partition.base.0 (machine_bytes (after_quantum slot memory.old)) }
{
    let partition = slot.partition;
    let base = partition.base.0 as usize;
    let end = partition.end();
    cpu::run(
        slot.state,
        &mut memory[base..end],
        partition.layout,
        partition.quantum as u64,
    )
}

// Rounds over all slots, the table changed in place. A slot that is empty or stopped costs a test. The inner loop goes by numbers: with
// `for slot in &mut next.slots` there is no whole table between two slots that its invariant could speak of, and the proof did not close.
// Not inlined, no more than `run`: a table that LLVM can follow from the check into the rounds is split into its fields, each copied at each
// slot, and short runs took eight times as long.
#[inline(never)]
fn run_rounds(table: Table, memory: &mut [u8], rounds: u16) -> Table
    requires table_value { table_sound table ≡ true }
    requires memory_len { length memory.old ≡ table.size }
    ensures { system result memory.new ≡ after_run rounds (system table memory.old) }
{
    let mut next = table;
    for _round in 0..rounds {
        for k in 0..Table::SLOTS {
            let s = next.slots[k];
            if s.state.status == Status::Running.number() {
                let state = run_quantum(s, memory);
                next.slots[k].state = state;
            }
        }
    }
    next
}

// Document 01's pass, so many times.
#[inline(never)]
pub fn run(table: Table, memory: &mut [u8], rounds: u16) -> Result<Table, RefusedCall>
    ensures { answer_outcome result memory.new ≡ run_outcome_of rounds (system table memory.old) }
{
    check_system(table, memory).map_err(|refusal| RefusedCall { refusal, table })?;
    Ok(run_rounds(table, memory, rounds))
}
