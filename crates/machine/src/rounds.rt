// Rounds of one machine alone.
ghost use Rattle.std.specs.Prelude.{◌≡◌, ◌*◌};
ghost use Rattle.cpu.specs.Machine.{beyond, machine_of, machine_step};
ghost use Rattle.common.specs.Repetition.{times};

use common::Layout;
use registers::{State, Status};

// So many rounds of a quantum each, until the machine stops; its state stays in a local from one to the next.
pub(crate) fn run_rounds(
    state: State,
    partition: &mut [u8],
    layout: Layout,
    quantum: u64,
    rounds: u64,
) -> State
    ensures partition_after { machine_of layout result partition.new ≡ times (rounds * quantum) machine_step (machine_of layout state partition.old) }
    ensures partition_unchanged { beyond layout partition.new ≡ beyond layout partition.old }
{
    let mut s = state;
    for _round in 0..rounds {
        if s.status != Status::Running.number() {
            break;
        }
        s = cpu::run(s, partition, layout, quantum);
    }
    s
}
