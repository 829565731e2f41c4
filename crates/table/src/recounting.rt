// Counting the free bytes of a table, whatever its two numbers say.
ghost use Rattle.std.specs.Prelude.{◌≡◌};
ghost use Rattle.table.specs.Recounting.{recount_of};
ghost use Rattle.table.specs.Table.{answer_in};

use crate::free_bytes::count_free;
use crate::sound::slots_sound;
use crate::table::{RefusedCall, Table};
use common::Refusal;

// The table with its free bytes counted. It is refused if its slots are not sound. It takes no memory.
#[tactic(auto, using(crate::proofs::GapLaws::counted_by_partitions_law, crate::specs::SoundLaws::slots_fact), unfolding(common::specs::ConditionDefinitions::condition_definitions, crate::specs::Recounting::recount_of))]
pub fn recount(table: Table) -> Result<Table, RefusedCall>
    ensures { answer_in result ≡ recount_of table }
{
    if !slots_sound(table) {
        let refusal = Refusal::NotSound;
        return Err(RefusedCall { refusal, table });
    }
    Ok(count_free(table))
}
