// Draining through a reference to a slot, for callers that have the slot by value.
ghost use Rattle.std.specs.Prelude.{◌≡◌};
ghost use Rattle.lend.specs.Lent.{drain_slot_outcome, drain_slot_of};

use lend::{SlotAnswer, drain_lent};
use table::Slot;

// Lends the slot, and answers it as the drain leaves it.
pub(crate) fn drain_loan(slot: Slot, memory: &[u8], buffer: &mut [u8]) -> SlotAnswer
    ensures { drain_slot_outcome result buffer.new ≡ drain_slot_of slot memory.now buffer.old }
{
    let mut s = slot;
    let drained = drain_lent(&mut s, memory, buffer);
    SlotAnswer { drained, slot: s }
}
