// The data port.
#![tactic(auto, unfolding(crate::specs::StepDefinitions::port_definitions, crate::specs::PortView::ports_of_view))]

ghost use Rattle.std.specs.Prelude.{◌≡◌};
ghost use Rattle.registers.specs.PackedCpu.{cpu_of};
ghost use Rattle.steps.specs.PackedStep.{step_result_of};
ghost use Rattle.cpu.specs.PortView.{ports_of_view};
ghost use Rattle.cpu.specs.Port.{read_data_of, write_data_of};

use registers::{PackedCpu, Status};
use steps::{PackedEffect, PackedStep};

// What the buffers offer to a step: is input unread, the bytes in which the next one stands, and where; is the output full.
#[derive(Clone, Copy)]
pub struct PortView<'a> {
    pub unread: bool,
    pub source: &'a [u8],
    pub at: usize,
    pub full: bool,
}

pub(crate) fn read_data(m: PackedCpu, ports: PortView, r: u8) -> PackedStep
    ensures { step_result_of result ≡ read_data_of (cpu_of m) 1 (ports_of_view ports.entry) r }
{
    if ports.unread {
        let byte = ports.source.get(ports.at).copied().unwrap_or(0);
        let n = steps::advanced(m.load(r, byte), 1);
        steps::step_result(n, Status::Running.number(), PackedEffect::Take)
    } else {
        steps::stopped(m, Status::WantsInput.number())
    }
}

pub(crate) fn write_data(m: PackedCpu, ports: PortView, r: u8) -> PackedStep
    ensures { step_result_of result ≡ write_data_of (cpu_of m) 1 (ports_of_view ports.entry) r }
{
    if ports.full {
        steps::stopped(m, Status::OutputFull.number())
    } else {
        let byte = m.register(r) as u64;
        let n = steps::advanced(m, 1);
        steps::step_result(n, Status::Running.number(), PackedEffect::Put { byte })
    }
}
