// Feeding: bytes to the front of the input buffer.
ghost use Rattle.std.specs.Prelude.{◌≡◌};
ghost use Rattle.supervisor.specs.Calls as calls;
ghost use Rattle.supervisor.specs.Calls.{refusal, outcome_of};
ghost use Rattle.common.specs.Refusals.{refusal_in};
ghost use Rattle.system.specs.System.{answer_outcome, system};
ghost use Rattle.supervisor.specs.Feeding.{fed_state};

use crate::location::input_location;
use crate::resuming::resumed_status;
use common::Refusal;
use registers::{State, Status};
use system::check_system_loaded_slot;
use table::{RefusedCall, Slot, Table};

// What refuses a feed.
fn check_feed(table: Table, memory: &[u8], slot: usize, bytes: &[u8]) -> Result<(), Refusal>
    ensures { refusal_in result ≡ refusal (calls.change slot (calls.feed bytes.now)) (system table memory.now) }
{
    check_system_loaded_slot(table, memory, slot)?;
    let s = table.slots[slot];
    if s.state.read < s.state.filled {
        return Err(Refusal::Unread);
    }
    if bytes.is_empty() | ((s.partition.layout.input as usize) < bytes.len()) {
        return Err(Refusal::NoInput);
    }
    Ok(())
}

// The input buffer is unread from its front; a machine that wants input runs again.
#[tactic(auto, unfolding(crate::specs::Feeding::fed_state))]
fn fed_state(count: u16, s: State) -> State
    ensures { result ≡ fed_state count s }
{
    State {
        status: resumed_status(Status::WantsInput, s.status),
        filled: count,
        read: 0,
        ..s
    }
}

// Document 01's feed.
pub fn feed(
    table: Table,
    memory: &mut [u8],
    slot: usize,
    bytes: &[u8],
) -> Result<Table, RefusedCall>
    ensures { answer_outcome result memory.new ≡ outcome_of (calls.change slot (calls.feed bytes.now)) (system table memory.old) }
{
    check_feed(table, memory, slot, bytes).map_err(|refusal| RefusedCall { refusal, table })?;
    let s = table.slots[slot];
    let partition = s.partition;
    slices::copy(memory, input_location(partition).0 as usize, bytes);
    let state = fed_state(bytes.len() as u16, s.state);
    Ok(table.with_slot(slot, Slot { state, ..s }))
}
