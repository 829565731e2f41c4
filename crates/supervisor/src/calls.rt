// Running as one of the calls on a system.
ghost use Rattle.std.specs.Prelude.{◌≡◌};
ghost use Rattle.supervisor.specs.Calls as calls;
ghost use Rattle.supervisor.specs.Calls.{outcome_of};
ghost use Rattle.system.specs.System.{answer_outcome, system};

use table::{RefusedCall, Table};

// So many rounds, of eight turns each. Crate system makes them; here they are held to what a run is among the calls.
#[tactic(auto, using(crate::specs::CallLaws::run_outcome))]
pub fn run(table: Table, memory: &mut [u8], rounds: u16) -> Result<Table, RefusedCall>
    ensures { answer_outcome result memory.new ≡ outcome_of (calls.run rounds) (system table memory.old) }
{
    system::run(table, memory, rounds)
}
