// The operand of each addressing mode, and what is done with it.
#![tactic(auto, unfolding(crate::specs::OperandDefinitions::operand_definitions))]

ghost use Rattle.std.specs.Prelude.{◌≡◌, Some};
ghost use Rattle.registers.specs.PackedCpu.{cpu_of};
ghost use Rattle.steps.specs.PackedStep.{step_result_of, operand_result_of};
ghost use Rattle.decode.specs.Decode.{mode_length};
ghost use Rattle.steps.specs.Operand.{index_value_of, indexed_address_of, data_address_of, data_register_of, stepped_index_of, register_operand_of, immediate_operand_of, relative_operand_of, absolute_operand_of, operand_of, operate_on_operand_of};

use crate::result::{PackedEffect, PackedStep};
use crate::{address, result};
use common::Address;
use decode::{Access, Mode};
use registers::{PackedCpu, Status};

// An operand: its byte, its address, the register that it is used with, and the Cpu after the instruction's own bytes.
#[derive(Clone, Copy)]
struct PackedOperand {
    byte: u8,
    address: Address,
    register: u8,
    cpu: PackedCpu,
}

// The control bits are the manual's two bits of the second byte, and stay the number that they are there.
fn index_value(control: u8, v: u8) -> u8
    ensures { result ≡ index_value_of control v }
{
    match control {
        0 => 0,
        1 => v.wrapping_add(1),
        2 => v.wrapping_sub(1),
        _ => v,
    }
}

fn indexed_address(window: &[u8], indirect: u8, a: Address, i: u8) -> Option<Address>
    ensures { result ≡ indexed_address_of window.now indirect a i }
{
    if indirect == 0 {
        Some(address::add_in_page(a, i))
    } else {
        let p = address::pointer(window, a)?;
        Some(address::add_wrapping(p, i))
    }
}

fn data_address(m: PackedCpu, high: u8, low: u8) -> Address
    ensures { result ≡ data_address_of (cpu_of m) high low }
{
    Address(m.counter().0 / 8192 * 8192 + ((high % 32) as u16 * 256 + low as u16))
}

fn data_register(control: u8, r: u8) -> u8
    ensures { result ≡ data_register_of control r }
{
    if control == 0 { r } else { 0 }
}

fn stepped_index(m: PackedCpu, r: u8, control: u8, i: u8) -> PackedCpu
    ensures { cpu_of result ≡ stepped_index_of (cpu_of m) r control i }
{
    if control == 0 {
        m
    } else {
        m.with_register(r, i)
    }
}

fn register_operand(m: PackedCpu, r: u8) -> PackedOperand
    ensures { operand_result_of (Some result) ≡ register_operand_of (cpu_of m) 1 r }
{
    PackedOperand {
        byte: m.register(r),
        address: Address(0),
        register: 0,
        cpu: result::advanced(m, 1),
    }
}

fn immediate_operand(m: PackedCpu, window: &[u8], r: u8) -> Option<PackedOperand>
    ensures { operand_result_of result ≡ immediate_operand_of (cpu_of m) 2 window.now r }
{
    let byte = address::fetch(window, result::address_after(m, 1))?;
    Some(PackedOperand {
        byte,
        address: Address(0),
        register: r,
        cpu: result::advanced(m, 2),
    })
}

fn relative_operand(m: PackedCpu, window: &[u8], r: u8) -> Option<PackedOperand>
    ensures { operand_result_of result ≡ relative_operand_of (cpu_of m) 2 window.now r }
{
    let second = address::fetch(window, result::address_after(m, 1))?;
    let direct = address::relative(result::address_after(m, 2), second);
    let address = address::resolve(window, second / 128, direct)?;
    let byte = address::fetch(window, address)?;
    Some(PackedOperand {
        byte,
        address,
        register: r,
        cpu: result::advanced(m, 2),
    })
}

fn absolute_operand(m: PackedCpu, window: &[u8], r: u8) -> Option<PackedOperand>
    ensures { operand_result_of result ≡ absolute_operand_of (cpu_of m) 3 window.now r }
{
    let high = address::fetch(window, result::address_after(m, 1))?;
    let low = address::fetch(window, result::address_after(m, 2))?;
    let control = high / 32 % 4;
    let index = index_value(control, m.register(r));
    let address = indexed_address(window, high / 128, data_address(m, high, low), index)?;
    let byte = address::fetch(window, address)?;
    let stepped = stepped_index(m, r, control, index);
    Some(PackedOperand {
        byte,
        address,
        register: data_register(control, r),
        cpu: result::advanced(stepped, 3),
    })
}

fn operand_of(mode: Mode, m: PackedCpu, window: &[u8], r: u8) -> Option<PackedOperand>
    ensures { operand_result_of result ≡ operand_of mode (cpu_of m) (mode_length mode) window.now r }
{
    match mode {
        Mode::Register => Some(register_operand(m, r)),
        Mode::Immediate => immediate_operand(m, window, r),
        Mode::Relative => relative_operand(m, window, r),
        Mode::Absolute => absolute_operand(m, window, r),
    }
}

// A store looks its operand up like the others: the same addresses are outside. Only a store looks at the lock, so that the others do not
// pay for it. One that the lock stops has not stepped its index.
pub fn operate_on_operand(
    mode: Mode,
    access: Access,
    m: PackedCpu,
    window: &[u8],
    locked: usize,
    r: u8,
) -> PackedStep
    ensures { step_result_of result ≡ operate_on_operand_of mode access (cpu_of m) (mode_length mode) window.now locked r }
{
    let Some(operand) = operand_of(mode, m, window, r) else {
        return result::stopped(m, Status::Outside.number());
    };
    match access {
        Access::Read(f) => result::operated(f, operand.cpu, operand.register, operand.byte),
        Access::Write => {
            if (operand.address.0 as usize) < locked {
                return result::stopped(m, Status::Locked.number());
            }
            let effect = PackedEffect::Store {
                address: operand.address.0 as u64,
                byte: operand.cpu.register(operand.register) as u64,
            };
            result::step_result(operand.cpu, Status::Running.number(), effect)
        }
    }
}
