// One step: the first byte is fetched and decoded, and its instruction executed.
#![tactic(auto, unfolding(crate::specs::StepDefinitions::instruction_definitions, crate::specs::PortView::ports_of_view))]

ghost use Rattle.std.specs.Prelude.{◌≡◌};
ghost use Rattle.registers.specs.PackedCpu.{cpu_of};
ghost use Rattle.steps.specs.PackedStep.{step_result_of};
ghost use Rattle.cpu.specs.PortView.{ports_of_view};
ghost use Rattle.decode.specs.Decode.{instruction_length};
ghost use Rattle.cpu.specs.Instruction.{execute_of, instruction_step};

use crate::port::PortView;
use crate::{branch, port, psw};
use decode::Instruction;
use registers::{PackedCpu, Status, stored_psu};
use steps::{PackedEffect, PackedStep};

// The Cpu and the window stay two parameters: an instruction changes the one and reads the other, and public functions of `steps` take both.
fn execute(
    i: Instruction,
    m: PackedCpu,
    window: &[u8],
    locked: usize,
    ports: PortView,
    r: u8,
) -> PackedStep
    ensures { step_result_of result ≡ execute_of i (cpu_of m) (instruction_length i) window.now locked (ports_of_view ports.entry) r }
{
    match i {
        Instruction::Unknown => steps::stopped(m, Status::Unknown.number()),
        Instruction::ControlPort | Instruction::ExtendedPort => {
            steps::stopped(m, Status::Port.number())
        }
        Instruction::Operate(mode, access) => steps::operate_on_operand(
            mode, access, m, window, locked, r,
        ),
        Instruction::Strz => steps::running_after(m.load(r, m.register(0)), 1),
        Instruction::Nop => steps::running_after(m, 1),
        Instruction::Halt => {
            let n = steps::advanced(m, 1);
            steps::step_result(n, Status::Halted.number(), PackedEffect::Nothing)
        }
        Instruction::Spsu => {
            let v = psw::psu_with_sense(m, ports.unread);
            steps::running_after(m.load(0, v), 1)
        }
        Instruction::Spsl => steps::running_after(m.load(0, m.psl()), 1),
        Instruction::Lpsu => {
            let v = stored_psu(m.register(0));
            steps::running_after(m.with_psu(v), 1)
        }
        Instruction::Lpsl => steps::running_after(m.with_psl(m.register(0)), 1),
        Instruction::Cpsu => psw::clear_psu(m, window),
        Instruction::Cpsl => psw::clear_psl(m, window),
        Instruction::Ppsu => psw::preset_psu(m, window),
        Instruction::Ppsl => psw::preset_psl(m, window),
        Instruction::Tpsu => psw::tested(m, window, psw::psu_with_sense(m, ports.unread)),
        Instruction::Tpsl => psw::tested(m, window, m.psl()),
        Instruction::Tmi => psw::tested(m, window, m.register(r)),
        Instruction::Dar => steps::running_after(m.adjust(r), 1),
        Instruction::Rrr => steps::running_after(m.rotate_right(r), 1),
        Instruction::Rrl => steps::running_after(m.rotate_left(r), 1),
        Instruction::Redd => port::read_data(m, ports, r),
        Instruction::Wrtd => port::write_data(m, ports, r),
        Instruction::Retc => branch::return_if(m, r),
        Instruction::Rete => branch::return_enable(m, r),
        Instruction::Branch(mode, kind) => branch::branch(mode, kind, m, window, r),
        Instruction::Zbrr => branch::zero_branch(false, m, window),
        Instruction::Zbsr => branch::zero_branch(true, m, window),
        Instruction::Bxa => branch::indexed_branch(false, m, window),
        Instruction::Bsxa => branch::indexed_branch(true, m, window),
    }
}

pub(crate) fn step(m: PackedCpu, window: &[u8], locked: usize, ports: PortView) -> PackedStep
    ensures { step_result_of result ≡ instruction_step (cpu_of m) window.now locked (ports_of_view ports.entry) }
{
    let Some(op) = steps::fetch(window, m.counter()) else {
        return steps::stopped(m, Status::Outside.number());
    };
    execute(Instruction::decode(op), m, window, locked, ports, op % 4)
}
