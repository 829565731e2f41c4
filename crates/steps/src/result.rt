// What a step comes to, and the ways in which one ends.
#![tactic(auto, unfolding(crate::specs::OperandDefinitions::result_definitions, crate::specs::PackedStep::step_result_of))]

ghost use Rattle.std.specs.Prelude.{◌≡◌};
ghost use Rattle.registers.specs.PackedCpu.{cpu_of};
ghost use Rattle.steps.specs.PackedStep.{effect_of, step_result_of};
ghost use Rattle.steps.specs.Result.{step_result, running_of, stopped_of, address_after, advanced_of, operated_of};

use crate::address;
use alu::Operation;
use common::Address;
use registers::{PackedCpu, Status};

// What a step does beside the registers: its numbers are whole words.
#[derive(Clone, Copy, Debug, PartialEq, Eq)]
pub enum PackedEffect {
    Nothing,
    Store { address: u64, byte: u64 },
    Take,
    Put { byte: u64 },
}

// What a step comes to. Its status is a number, since callers of `step_result` may pass any.
#[derive(Clone, Copy)]
pub struct PackedStep {
    pub cpu: PackedCpu,
    pub status: u8,
    pub effect: PackedEffect,
}

pub fn step_result(m: PackedCpu, status: u8, effect: PackedEffect) -> PackedStep
    ensures { step_result_of result ≡ step_result (cpu_of m) status (effect_of effect) }
{
    PackedStep {
        cpu: m,
        status,
        effect,
    }
}

pub fn running(m: PackedCpu) -> PackedStep
    ensures { step_result_of result ≡ running_of (cpu_of m) }
{
    step_result(m, Status::Running.number(), PackedEffect::Nothing)
}

pub fn stopped(m: PackedCpu, status: u8) -> PackedStep
    ensures { step_result_of result ≡ stopped_of (cpu_of m) status }
{
    step_result(m, status, PackedEffect::Nothing)
}

pub fn address_after(m: PackedCpu, k: u8) -> Address
    ensures { result ≡ address_after (cpu_of m) k }
{
    address::add_in_page(m.counter(), k)
}

pub fn advanced(m: PackedCpu, k: u8) -> PackedCpu
    ensures { cpu_of result ≡ advanced_of (cpu_of m) k }
{
    m.with_counter(address_after(m, k))
}

// The instruction is carried out: the counter is past its k bytes.
pub fn running_after(m: PackedCpu, k: u8) -> PackedStep
    ensures { step_result_of result ≡ running_of (advanced_of (cpu_of m) k) }
{
    running(advanced(m, k))
}

pub(crate) fn operated(f: Operation, m: PackedCpu, r: u8, b: u8) -> PackedStep
    ensures { step_result_of result ≡ operated_of f (cpu_of m) r b }
{
    running(m.operate(f, r, b))
}
