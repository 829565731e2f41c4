// The run of one machine, whose state crosses the border as bytes.
ghost use Rattle.std.specs.Prelude.{◌≡◌, ◌*◌};
ghost use Rattle.machine.specs.MachineRun.{layout_of, machine_outcome, machine_outcome_of};

use crate::rounds;
use common::Layout;

// Runs one machine: `rounds` times `quantum` steps over its partition. The state is as crate encoding has it;
// with another length nothing is touched and the answer is 1, else it is 0.
#[tactic(auto, using(common::specs::TestLaws::tests), unfolding(crate::specs::MachineRun::machine_outcome, crate::specs::MachineRun::machine_outcome_of, common::specs::ConditionDefinitions::condition_definitions))]
#[unsafe(no_mangle)]
pub extern "C" fn pf_machine_run(
    state: &mut [u8],
    partition: &mut [u8],
    window: u16,
    input: u16,
    output: u16,
    locked: u16,
    quantum: u64,
    rounds: u64,
) -> u8
    ensures { machine_outcome result (layout_of window input output locked) state.new partition.new ≡ machine_outcome_of (layout_of window input output locked) state.old partition.old (rounds * quantum) }
{
    if state.len() != encoding::STATE_LENGTH {
        return 1;
    }
    let layout = Layout {
        window,
        input,
        output,
        locked,
    };
    let start = encoding::decode_state(state);
    let end = rounds::run_rounds(start, partition, layout, quantum, rounds);
    let bytes = encoding::encode_state(end);
    state.copy_from_slice(&bytes);
    0
}
