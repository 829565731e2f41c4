// Branches, calls and returns.
#![tactic(auto, unfolding(crate::specs::StepDefinitions::branch_definitions))]

ghost use Rattle.std.specs.Prelude.{◌≡◌};
ghost use Rattle.cpu.specs.Branch.{condition_met_of, register_counted_of, register_not_zero, is_taken_of, is_call_of, jump_of, branch_if_taken_of, target_of, branch_of, zero_branch_of, indexed_branch_of, return_if_of, clear_ii_of, return_enable_of};
ghost use Rattle.decode.specs.Decode.{branch_mode_length};
ghost use Rattle.registers.specs.PackedCpu.{cpu_of};
ghost use Rattle.steps.specs.PackedStep.{step_result_of};

use common::Address;
use decode::{BranchKind, BranchMode};
use registers::{PackedCpu, Status};
use steps::PackedStep;

// What a branch's own bytes say: the indirect bit, the address, and the address of the next instruction.
#[derive(Clone, Copy, Debug, PartialEq, Eq)]
pub struct Target {
    pub indirect: u8,
    pub address: Address,
    pub next: Address,
}

fn condition_met(psl: u8, v: u8) -> bool
    ensures { result ≡ condition_met_of psl v }
{
    v == 3 || psl / 64 == v
}

fn register_not_zero(m: PackedCpu, r: u8) -> bool
    ensures { result ≡ register_not_zero (cpu_of m) r }
{
    m.register(r) != 0
}

fn register_counted(kind: BranchKind, m: PackedCpu, r: u8) -> PackedCpu
    ensures { cpu_of result ≡ register_counted_of kind (cpu_of m) r }
{
    match kind {
        BranchKind::Bir => m.with_register(r, m.register(r).wrapping_add(1)),
        BranchKind::Bdr => m.with_register(r, m.register(r).wrapping_sub(1)),
        BranchKind::Bct
        | BranchKind::Bcf
        | BranchKind::Brn
        | BranchKind::Bst
        | BranchKind::Bsf
        | BranchKind::Bsn => m,
    }
}

// Each kind has an arm of its own: with arms joined, the compiler tells the kinds apart again for `is_call`, which costs a branch a
// tenth.
fn is_taken(kind: BranchKind, m: PackedCpu, r: u8) -> bool
    ensures { result ≡ is_taken_of kind (cpu_of m) r }
{
    match kind {
        BranchKind::Bct => condition_met(m.psl(), r),
        BranchKind::Bcf => !condition_met(m.psl(), r),
        BranchKind::Brn => register_not_zero(m, r),
        BranchKind::Bir => register_not_zero(m, r),
        BranchKind::Bdr => register_not_zero(m, r),
        BranchKind::Bst => condition_met(m.psl(), r),
        BranchKind::Bsf => !condition_met(m.psl(), r),
        BranchKind::Bsn => register_not_zero(m, r),
    }
}

fn is_call(kind: BranchKind) -> bool
    ensures { result ≡ is_call_of kind }
{
    matches!(kind, BranchKind::Bst | BranchKind::Bsf | BranchKind::Bsn)
}

fn jump(call: bool, m: PackedCpu, a: Address, next: Address) -> PackedStep
    ensures { step_result_of result ≡ jump_of call (cpu_of m) a next }
{
    if call {
        steps::running(m.call(next).with_counter(a))
    } else {
        steps::running(m.with_counter(a))
    }
}

fn branch_if_taken(
    kind: BranchKind,
    m: PackedCpu,
    counted: PackedCpu,
    window: &[u8],
    r: u8,
    target: Target,
) -> PackedStep
    ensures { step_result_of result ≡ branch_if_taken_of kind (cpu_of m) (cpu_of counted) window.now r target.indirect target.address target.next }
{
    if is_taken(kind, counted, r) {
        let Some(a) = steps::resolve(window, target.indirect, target.address) else {
            return steps::stopped(m, Status::Outside.number());
        };
        jump(is_call(kind), counted, a, target.next)
    } else {
        steps::running(counted.with_counter(target.next))
    }
}

fn target_of(mode: BranchMode, m: PackedCpu, window: &[u8]) -> Option<Target>
    ensures { result ≡ target_of mode (cpu_of m) (branch_mode_length mode) window.now }
{
    let second = steps::fetch(window, steps::address_after(m, 1))?;
    let third_at = steps::address_after(m, 2);
    match mode {
        BranchMode::Relative => Some(Target {
            indirect: second / 128,
            address: steps::relative(third_at, second),
            next: third_at,
        }),
        BranchMode::Absolute => {
            let third = steps::fetch(window, third_at)?;
            Some(Target {
                indirect: second / 128,
                address: steps::address_of(second, third),
                next: steps::address_after(m, 3),
            })
        }
    }
}

pub(crate) fn branch(
    mode: BranchMode,
    kind: BranchKind,
    m: PackedCpu,
    window: &[u8],
    r: u8,
) -> PackedStep
    ensures { step_result_of result ≡ branch_of mode kind (cpu_of m) (branch_mode_length mode) window.now r }
{
    let Some(target) = target_of(mode, m, window) else {
        return steps::stopped(m, Status::Outside.number());
    };
    branch_if_taken(kind, m, register_counted(kind, m, r), window, r, target)
}

// It and the next one end alike. A function of the target alone, as `target_of` is for the others, would need a definition of its own.
pub(crate) fn zero_branch(call: bool, m: PackedCpu, window: &[u8]) -> PackedStep
    ensures { step_result_of result ≡ zero_branch_of call (cpu_of m) 2 window.now }
{
    let Some(second) = steps::fetch(window, steps::address_after(m, 1)) else {
        return steps::stopped(m, Status::Outside.number());
    };
    let direct = steps::relative(Address(0), second);
    let Some(a) = steps::resolve(window, second / 128, direct) else {
        return steps::stopped(m, Status::Outside.number());
    };
    jump(call, m, a, steps::address_after(m, 2))
}

pub(crate) fn indexed_branch(call: bool, m: PackedCpu, window: &[u8]) -> PackedStep
    ensures { step_result_of result ≡ indexed_branch_of call (cpu_of m) 3 window.now }
{
    let Some(second) = steps::fetch(window, steps::address_after(m, 1)) else {
        return steps::stopped(m, Status::Outside.number());
    };
    let Some(third) = steps::fetch(window, steps::address_after(m, 2)) else {
        return steps::stopped(m, Status::Outside.number());
    };
    let direct = steps::address_of(second, third);
    let Some(a) = steps::resolve(window, second / 128, direct) else {
        return steps::stopped(m, Status::Outside.number());
    };
    let indexed = steps::add_wrapping(a, m.register(3));
    jump(call, m, indexed, steps::address_after(m, 3))
}

// RETC, and below RETE, which clears II too: a closure for that one call would be longer than the branch that stands twice.
pub(crate) fn return_if(m: PackedCpu, v: u8) -> PackedStep
    ensures { step_result_of result ≡ return_if_of (cpu_of m) 1 v }
{
    if condition_met(m.psl(), v) {
        steps::running(m.return_from_call())
    } else {
        steps::running_after(m, 1)
    }
}

fn clear_ii(m: PackedCpu) -> PackedCpu
    ensures { cpu_of result ≡ clear_ii_of (cpu_of m) }
{
    let u = m.psu();
    m.with_psu(u / 64 * 64 + u % 32)
}

pub(crate) fn return_enable(m: PackedCpu, v: u8) -> PackedStep
    ensures { step_result_of result ≡ return_enable_of (cpu_of m) 1 v }
{
    if condition_met(m.psl(), v) {
        steps::running(clear_ii(m.return_from_call()))
    } else {
        steps::running_after(m, 1)
    }
}
