// Draining: the written bytes to the front of a lent buffer.
ghost use Rattle.std.specs.Prelude.{◌≡◌, length};
ghost use Rattle.supervisor.specs.Calls as calls;
ghost use Rattle.supervisor.specs.Calls.{refusal, outcome_of, drained_count, drained_buffer};
ghost use Rattle.common.specs.Refusals.{refusal_in};
ghost use Rattle.system.specs.System.{system};
ghost use Rattle.supervisor.specs.Draining.{count_in, drain_outcome, drained_state};

use crate::location::output_location;
use crate::resuming::resumed_status;
use common::Refusal;
use registers::{State, Status};
use system::check_system_loaded_slot;
use table::{RefusedCall, Slot, Table};

// How many bytes were drained, and the table.
#[derive(Clone, Copy)]
pub struct Drained {
    pub count: usize,
    pub table: Table,
}

// What refuses a drain into a buffer of that room.
fn check_drain(table: Table, memory: &[u8], slot: usize, room: usize) -> Result<(), Refusal>
    ensures { refusal_in result ≡ refusal (calls.change slot (calls.drain room)) (system table memory.now) }
{
    check_system_loaded_slot(table, memory, slot)?;
    if room < table.slots[slot].state.written as usize {
        return Err(Refusal::Short);
    }
    Ok(())
}

// The output buffer is written from its front again; a machine that found it full runs again.
#[tactic(auto, unfolding(crate::specs::Draining::drained_state))]
fn drained_state(s: State) -> State
    ensures { result ≡ drained_state s }
{
    State {
        status: resumed_status(Status::OutputFull, s.status),
        written: 0,
        ..s
    }
}

// Document 01's collect. The memory's bytes are left, and so is the buffer behind the drained bytes.
pub fn drain(
    table: Table,
    memory: &[u8],
    slot: usize,
    buffer: &mut [u8],
) -> Result<Drained, RefusedCall>
    ensures memory_value { drain_outcome result memory.now ≡ outcome_of (calls.change slot (calls.drain (length buffer.old))) (system table memory.now) }
    ensures count_value { count_in result ≡ drained_count (system table memory.now) slot (length buffer.old) }
    ensures buffer_after { buffer.new ≡ drained_buffer (system table memory.now) slot buffer.old }
{
    check_drain(table, memory, slot, buffer.len()).map_err(|refusal| RefusedCall {
        refusal,
        table,
    })?;
    let s = table.slots[slot];
    let partition = s.partition;
    let count = s.state.written as usize;
    let location = output_location(partition);
    slices::copy(buffer, 0, slices::part(memory, location.0 as usize, count));
    let state = drained_state(s.state);
    let table = table.with_slot(slot, Slot { state, ..s });
    Ok(Drained { count, table })
}
