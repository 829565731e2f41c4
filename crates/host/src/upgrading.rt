// A table that an earlier version kept, stored in today's form.
ghost use Rattle.std.specs.Prelude.{◌≡◌};
ghost use Rattle.host.specs.HostCalls.{buffer_outcome};
ghost use Rattle.host.specs.Upgrading.{host_upgrade};

use crate::host_calls::answer;
use common::Refusal;
use earlier::upgrade_table;
use encoding::{TABLE_LENGTH, store_table};

// Writes the table that an earlier version kept in `old` to `table`, in today's form.
#[tactic(auto, using(crate::proofs::UpgradeLaws::upgrade_refused, crate::proofs::UpgradeLaws::upgrade_short, crate::proofs::UpgradeLaws::upgrade_made, encoding::specs::TableRoundTripLaws::stored_whole, common::specs::RefusalLaws::number_some))]
#[unsafe(no_mangle)]
pub extern "C" fn pf_upgrade(old: &[u8], table: &mut [u8]) -> u32
    ensures { buffer_outcome result table.new ≡ host_upgrade old.now table.old }
{
    let upgraded = match upgrade_table(old) {
        Ok(upgraded) => upgraded,
        Err(refused) => return answer(Err(refused.refusal)),
    };
    if table.len() != TABLE_LENGTH {
        return answer(Err(Refusal::Short));
    }
    store_table(table, upgraded);
    answer(Ok(0))
}
