// What refuses a call before its own conditions: the table's conditions, the memory's, the slot's. Each is looked at in one place.
// The table goes by value, as document 01 wants the core, and its memory as a lent slice, as the entry points have it: no struct holds both.
ghost use Rattle.std.specs.Prelude.{◌++◌, ◌≡◌};
ghost use Rattle.common.specs.Refusals.{refusal_by, refusal_in};
ghost use Rattle.table.specs.TableConditions.{empty_slot_conditions, loaded_slot_conditions};
ghost use Rattle.system.specs.System.{system};
ghost use Rattle.system.specs.Conditions.{system_conditions};

use common::Refusal;
use table::{Table, check_empty_slot, check_loaded_slot, check_table};

// What refuses a call with a table and its memory.
#[tactic(auto, using(table::specs::CheckLaws::front_passes, table::specs::TableConditionLaws::table_numbered, common::specs::TestLaws::tests), unfolding(crate::specs::Conditions::system_conditions, common::specs::ConditionDefinitions::condition_definitions))]
pub fn check_system(table: Table, memory: &[u8]) -> Result<(), Refusal>
    ensures { refusal_in result ≡ refusal_by (system_conditions (system table memory.now)) }
{
    check_table(table)?;
    if memory.len() != table.size as usize {
        return Err(Refusal::OtherLength);
    }
    Ok(())
}

// What refuses a call with a table and its memory, at a slot that is to be empty.
#[tactic(auto, using(table::specs::CheckLaws::front_passes, crate::specs::ConditionLaws::system_numbered))]
pub fn check_system_empty_slot(table: Table, memory: &[u8], slot: usize) -> Result<(), Refusal>
    ensures { refusal_in result ≡ refusal_by (system_conditions (system table memory.now) ++ empty_slot_conditions table slot) }
{
    check_system(table, memory)?;
    check_empty_slot(table, slot)
}

// What refuses a call with a table and its memory, at a slot that is to hold a pattern.
#[tactic(auto, using(table::specs::CheckLaws::front_passes, crate::specs::ConditionLaws::system_numbered))]
pub fn check_system_loaded_slot(table: Table, memory: &[u8], slot: usize) -> Result<(), Refusal>
    ensures { refusal_in result ≡ refusal_by (system_conditions (system table memory.now) ++ loaded_slot_conditions table slot) }
{
    check_system(table, memory)?;
    check_loaded_slot(table, slot)
}
