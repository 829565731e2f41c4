// Resuming: a stopped machine runs again.
ghost use Rattle.std.specs.Prelude.{◌≡◌};
ghost use Rattle.registers.specs.State.{status_number};
ghost use Rattle.supervisor.specs.Resuming.{resumed_status};

use registers::Status;

// A machine that stopped for that reason runs again.
#[tactic(auto, using(common::specs::TestLaws::tests), unfolding(crate::specs::Resuming::resumed_status, common::specs::ConditionDefinitions::condition_definitions))]
pub(crate) fn resumed_status(reason: Status, status: u8) -> u8
    ensures { result ≡ resumed_status (status_number reason) status }
{
    if status == reason.number() {
        Status::Running.number()
    } else {
        status
    }
}
