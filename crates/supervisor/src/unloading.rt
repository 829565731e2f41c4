// Unloading: the partition is zeroed, so that nothing of the pattern is left, and the slot emptied.
ghost use Rattle.std.specs.Prelude.{◌≡◌};
ghost use Rattle.supervisor.specs.Calls as calls;
ghost use Rattle.system.specs.System.{answer_outcome, system};
ghost use Rattle.supervisor.specs.Calls.{outcome_of};

use system::check_system_loaded_slot;
use table::{RefusedCall, Slot, Table, count_free};

// Document 01's lift.
pub fn unload(table: Table, memory: &mut [u8], slot: usize) -> Result<Table, RefusedCall>
    ensures { answer_outcome result memory.new ≡ outcome_of (calls.change slot calls.unload) (system table memory.old) }
{
    check_system_loaded_slot(table, memory, slot).map_err(|refusal| RefusedCall {
        refusal,
        table,
    })?;
    let partition = table.slots[slot].partition;
    let layout = partition.layout;
    slices::fill(memory, partition.base.0 as usize, layout.size(), 0);
    Ok(count_free(table.with_slot(slot, Slot::empty())))
}
