// A run of steps over one partition's bytes.
ghost use Rattle.std.specs.Prelude.{◌≡◌};
ghost use Rattle.cpu.specs.Machine.{beyond, machine_of, machine_step};
ghost use Rattle.common.specs.Repetition.{times};

use crate::partition;
use crate::partition::Positions;
use common::Layout;
use registers::{Cpu, PackedCpu, State, Status};

// At most so many steps, until the status is not 1. A caller lends exactly the partition's bytes. A slice that is shorter than the
// layout cuts the parts behind its end; of one that is longer the rest is untouched.
pub fn run(state: State, partition: &mut [u8], layout: Layout, steps: u64) -> State
    ensures partition_after { machine_of layout result partition.new ≡ times steps machine_step (machine_of layout state partition.old) }
    ensures partition_unchanged { beyond layout partition.new ≡ beyond layout partition.old }
{
    let bounds = partition::bounds_of(layout, state.filled, partition.len());
    let mut cpu = PackedCpu::from(state.cpu);
    let mut status = state.status;
    let mut positions = Positions {
        read: state.read as usize,
        written: state.written as usize,
    };
    for _ in 0..steps {
        if status != Status::Running.number() {
            break;
        }
        let stepped = partition::step_in_partition(cpu, partition, bounds, positions);
        positions = partition::apply_effect(partition, stepped.effect, bounds, positions);
        cpu = stepped.cpu;
        status = stepped.status;
    }
    State {
        cpu: Cpu::from(cpu),
        status,
        read: positions.read as u16,
        written: positions.written as u16,
        ..state
    }
}

// One step.
#[tactic(auto, using(common::specs::RepetitionLaws::times_one))]
pub fn step(state: State, partition: &mut [u8], layout: Layout) -> State
    ensures partition_after { machine_of layout result partition.new ≡ machine_step (machine_of layout state partition.old) }
    ensures partition_unchanged { beyond layout partition.new ≡ beyond layout partition.old }
{
    run(state, partition, layout, 1)
}
