// A partition's parts by their bounds: what a step sees of them, and what it writes.
#![tactic(auto, unfolding(crate::specs::Partition::partition_definitions))]

ghost use Rattle.std.specs.Prelude.{◌≡◌, length, take};
ghost use Rattle.registers.specs.PackedCpu.{cpu_of};
ghost use Rattle.steps.specs.PackedStep.{step_result_of};
ghost use Rattle.cpu.specs.PortView.{ports_of_view};
ghost use Rattle.cpu.specs.Partition.{bounds_of, BoundsHold, BoundsInside, PositionsFit, port_view_of, partition_after, apply_effect_of};
ghost use Rattle.cpu.specs.Instruction.{instruction_step};

use crate::instruction;
use crate::port::PortView;
use common::Layout;
use registers::PackedCpu;
use steps::{PackedEffect, PackedStep};

// The bounds of a partition's parts. `window_end`, `input_end` and `output_end` are cut at the end of the bytes at hand; `input_start`,
// `output_start` and `end` are as the sizes have them. `locked` is how many bytes of the window are locked, and `filled` how far the input
// is filled. The loop of a run knows the layout by these alone.
#[derive(Clone, Copy, Debug, PartialEq, Eq)]
pub struct Bounds {
    pub window_end: usize,
    pub input_start: usize,
    pub input_end: usize,
    pub output_start: usize,
    pub output_end: usize,
    pub end: usize,
    pub locked: usize,
    pub filled: usize,
}

// How far the input is read and the output written. Whole words, since the loop of a run keeps them: as `u16`, of which no bound has to be
// said, they cost a step up to a tenth.
#[derive(Clone, Copy, Debug, PartialEq, Eq)]
pub struct Positions {
    pub read: usize,
    pub written: usize,
}

pub(crate) fn bounds_of(layout: Layout, filled: u16, available: usize) -> Bounds
    ensures value { result ≡ bounds_of layout filled available }
    ensures bounds_hold { BoundsHold result available }
{
    let input_start = layout.window as usize;
    let output_start = input_start + layout.input as usize;
    let end = output_start + layout.output as usize;
    Bounds {
        window_end: input_start.min(available),
        input_start,
        input_end: output_start.min(available),
        output_start,
        output_end: end.min(available),
        end,
        locked: layout.locked as usize,
        filled: filled as usize,
    }
}

fn port_view<'a>(partition: &'a [u8], bounds: Bounds, positions: Positions) -> PortView<'a>
    requires bounds_inside { BoundsInside bounds (length partition.now) }
    requires positions_fit { PositionsFit positions }
    ensures { ports_of_view result ≡ port_view_of bounds positions partition.now }
{
    PortView {
        unread: positions.read < bounds.filled,
        source: &partition[..bounds.input_end],
        at: bounds.input_start + positions.read,
        full: bounds.output_end <= bounds.output_start + positions.written,
    }
}

// One instruction on the partition's bytes: fetch and operand reading see the window alone.
pub(crate) fn step_in_partition(
    m: PackedCpu,
    partition: &[u8],
    bounds: Bounds,
    positions: Positions,
) -> PackedStep
    requires bounds_inside { BoundsInside bounds (length partition.now) }
    requires positions_fit { PositionsFit positions }
    ensures { step_result_of result ≡ instruction_step (cpu_of m) (take bounds.window_end partition.now) bounds.locked (port_view_of bounds positions partition.now) }
{
    let ports = port_view(partition, bounds, positions);
    instruction::step(m, &partition[..bounds.window_end], bounds.locked, ports)
}

// The one write of a step.
pub(crate) fn apply_effect(
    partition: &mut [u8],
    effect: PackedEffect,
    bounds: Bounds,
    positions: Positions,
) -> Positions
    requires bounds_inside { BoundsInside bounds (length partition.old) }
    requires positions_fit { PositionsFit positions }
    ensures positions_fit { PositionsFit result }
    ensures effect_applied { partition_after result partition.new ≡ apply_effect_of effect bounds positions partition.old }
{
    match effect {
        PackedEffect::Nothing => positions,
        PackedEffect::Store { address, byte } => {
            let at = address as usize;
            if at < bounds.window_end {
                partition[at] = (byte % 256) as u8;
            }
            positions
        }
        PackedEffect::Take => {
            if positions.read < bounds.filled {
                Positions {
                    read: positions.read + 1,
                    ..positions
                }
            } else {
                positions
            }
        }
        PackedEffect::Put { byte } => {
            let at = bounds.output_start + positions.written;
            if at < bounds.output_end {
                partition[at] = (byte % 256) as u8;
                Positions {
                    written: positions.written + 1,
                    ..positions
                }
            } else {
                positions
            }
        }
    }
}
