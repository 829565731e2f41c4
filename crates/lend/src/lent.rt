// Draining over one slot that is lent by reference (document 01, "Floor and bays": collecting over one station's record).
ghost use Rattle.std.specs.Prelude.{◌≡◌};
ghost use Rattle.lend.specs.Lent.{drain_slot_outcome, drain_slot_of, drain_lent_outcome, drained_alone_outcome, lent_answer_in};

use common::Refusal;
use supervisor::Drained;
use table::{Slot, Table};

// How many bytes were drained, or why none were; and the slot: the given one where the call is refused.
#[derive(Clone, Copy)]
pub struct SlotAnswer {
    pub drained: Result<usize, Refusal>,
    pub slot: Slot,
}

// Drains the slot as the only one of a table. That table's free bytes are counted, so that the slot decides alone whether it is sound.
fn drain_alone(slot: Slot, memory: &[u8], buffer: &mut [u8]) -> Result<Drained, Refusal>
    ensures { drained_alone_outcome result slot buffer.new ≡ drain_slot_of slot memory.now buffer.old }
{
    let Ok(empty) = Table::new(memory.len()) else {
        return Err(Refusal::NotSound);
    };
    let Ok(alone) = table::recount(empty.with_slot(0, slot)) else {
        return Err(Refusal::NotSound);
    };
    supervisor::drain(alone, memory, 0, buffer).map_err(|refused| refused.refusal)
}

// Drains the slot: by value, and all of the work.
#[tactic(auto, unfolding(table::specs::Table::slot_at))]
pub fn drain_slot(slot: Slot, memory: &[u8], buffer: &mut [u8]) -> SlotAnswer
    ensures { drain_slot_outcome result buffer.new ≡ drain_slot_of slot memory.now buffer.old }
{
    match drain_alone(slot, memory, buffer) {
        Ok(d) => SlotAnswer {
            drained: Ok(d.count),
            slot: d.table.slots[0],
        },
        Err(refusal) => SlotAnswer {
            drained: Err(refusal),
            slot,
        },
    }
}

// The slot is taken out, drained, and put back.
pub fn drain_lent(slot: &mut Slot, memory: &[u8], buffer: &mut [u8]) -> Result<usize, Refusal>
    ensures { drain_lent_outcome (lent_answer_in result) slot.new buffer.new ≡ drain_slot_of slot.old memory.now buffer.old }
{
    let answer = drain_slot(*slot, memory, buffer);
    *slot = answer.slot;
    answer.drained
}
