// What refuses a call with a table before its own conditions: the table's conditions and the slot's. Each is looked at in one place.
ghost use Rattle.std.specs.Prelude.{◌≡◌};
ghost use Rattle.common.specs.Refusals.{refusal_by, refusal_in};
ghost use Rattle.table.specs.TableConditions.{table_conditions, empty_slot_conditions, loaded_slot_conditions};

use crate::sound::table_sound;
use crate::table::Table;
use common::Refusal;

// What refuses a call with a table.
#[tactic(auto, unfolding(common::specs::ConditionDefinitions::condition_definitions, crate::specs::TableConditions::table_conditions))]
pub fn check_table(table: Table) -> Result<(), Refusal>
    ensures { refusal_in result ≡ refusal_by (table_conditions table) }
{
    if !table_sound(table) {
        return Err(Refusal::NotSound);
    }
    Ok(())
}

// What refuses a call at a slot that is to be empty.
#[tactic(auto, using(common::specs::TestLaws::tests), unfolding(common::specs::ConditionDefinitions::condition_definitions, crate::specs::TableConditions::empty_slot_conditions, crate::specs::Table::slot_at))]
pub fn check_empty_slot(table: Table, slot: usize) -> Result<(), Refusal>
    ensures { refusal_in result ≡ refusal_by (empty_slot_conditions table slot) }
{
    if Table::SLOTS <= slot {
        return Err(Refusal::NoSlot);
    }
    if !table.slots[slot].is_empty() {
        return Err(Refusal::Taken);
    }
    Ok(())
}

// What refuses a call at a slot that is to hold a pattern.
#[tactic(auto, using(common::specs::TestLaws::tests), unfolding(common::specs::ConditionDefinitions::condition_definitions, crate::specs::TableConditions::loaded_slot_conditions, crate::specs::Table::slot_at))]
pub fn check_loaded_slot(table: Table, slot: usize) -> Result<(), Refusal>
    ensures { refusal_in result ≡ refusal_by (loaded_slot_conditions table slot) }
{
    if Table::SLOTS <= slot {
        return Err(Refusal::NoSlot);
    }
    if table.slots[slot].is_empty() {
        return Err(Refusal::Empty);
    }
    Ok(())
}
