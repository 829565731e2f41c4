// Sense, and the instructions with a mask in their second byte.
#![tactic(auto, unfolding(crate::specs::StepDefinitions::mask_definitions))]

ghost use Rattle.std.specs.Prelude.{◌≡◌, ℕ, ◌-◌, bit_and, bit_or};
ghost use Rattle.registers.specs.PackedCpu.{cpu_of};
ghost use Rattle.registers.specs.declared.cpu.Cpu.{Cpu};
ghost use Rattle.registers.specs.Cpu.{psu_with_sense, stored_psu, psu_of, psl_of, with_psu, with_psl};
ghost use Rattle.steps.specs.PackedStep.{step_result_of};
ghost use Rattle.cpu.specs.Psw.{masked_of, tested_of};
ghost use Rattle.cpu.specs.Masked.{Changes};

use registers::{PackedCpu, Status, stored_psu};
use steps::PackedStep;

pub(crate) fn psu_with_sense(m: PackedCpu, unread: bool) -> u8
    ensures { result ≡ psu_with_sense (cpu_of m) unread }
{
    let u = m.psu();
    if unread { u % 128 + 128 } else { u % 128 }
}

// An instruction of two bytes: `change` gives the Cpu by the mask in the second one.
fn masked<F: FnOnce(u8) -> PackedCpu>(m: PackedCpu, window: &[u8], change: F) -> PackedStep
    requires { F.IsAlwaysCallable change }
    ensures { (f : ℕ → Cpu) → Changes (F.post change) f → step_result_of result ≡ masked_of (cpu_of m) 2 window.now f }
{
    let Some(mask) = steps::fetch(window, steps::address_after(m, 1)) else {
        return steps::stopped(m, Status::Outside.number());
    };
    steps::running_after(change(mask), 2)
}

pub(crate) fn clear_psu(m: PackedCpu, window: &[u8]) -> PackedStep
    ensures { step_result_of result ≡ masked_of (cpu_of m) 2 window.now (λ mask. with_psu (cpu_of m) (stored_psu (bit_and (psu_of (cpu_of m)) (255 - mask)))) }
{
    masked(m, window, |mask| m.with_psu(stored_psu(m.psu() & !mask)))
}

pub(crate) fn clear_psl(m: PackedCpu, window: &[u8]) -> PackedStep
    ensures { step_result_of result ≡ masked_of (cpu_of m) 2 window.now (λ mask. with_psl (cpu_of m) (bit_and (psl_of (cpu_of m)) (255 - mask))) }
{
    masked(m, window, |mask| m.with_psl(m.psl() & !mask))
}

pub(crate) fn preset_psu(m: PackedCpu, window: &[u8]) -> PackedStep
    ensures { step_result_of result ≡ masked_of (cpu_of m) 2 window.now (λ mask. with_psu (cpu_of m) (stored_psu (bit_or (psu_of (cpu_of m)) mask))) }
{
    masked(m, window, |mask| m.with_psu(stored_psu(m.psu() | mask)))
}

pub(crate) fn preset_psl(m: PackedCpu, window: &[u8]) -> PackedStep
    ensures { step_result_of result ≡ masked_of (cpu_of m) 2 window.now (λ mask. with_psl (cpu_of m) (bit_or (psl_of (cpu_of m)) mask)) }
{
    masked(m, window, |mask| m.with_psl(m.psl() | mask))
}

pub(crate) fn tested(m: PackedCpu, window: &[u8], v: u8) -> PackedStep
    ensures { step_result_of result ≡ tested_of (cpu_of m) 2 window.now v }
{
    masked(m, window, |mask| m.test(v, mask))
}
