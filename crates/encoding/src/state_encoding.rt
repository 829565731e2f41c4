// A machine's state as bytes, and back.
ghost use Rattle.std.specs.Prelude.{◌≡◌};
ghost use Rattle.encoding.specs.StateEncoding.{cpu_from_bytes, registers_from_bytes, returns_from_bytes, state_from_bytes, state_bytes};

use registers::{Cpu, State};
use slices::{byte, copy, put_byte, put_u16, put_u16s, u16_at};
use std::array;

// How many bytes a state has.
pub const STATE_LENGTH: usize = 34;

#[tactic(auto, unfolding(crate::specs::StateEncoding::registers_from_bytes))]
fn decode_registers(bytes: &[u8]) -> [u8; 7]
    ensures { result ≡ registers_from_bytes bytes.now }
{
    array::from_fn(|i| byte(bytes, 2 + i))
}

#[tactic(auto, unfolding(crate::specs::StateEncoding::returns_from_bytes))]
fn decode_returns(bytes: &[u8]) -> [u16; 8]
    ensures { result ≡ returns_from_bytes bytes.now }
{
    array::from_fn(|i| u16_at(bytes, 11 + 2 * i))
}

#[tactic(auto, unfolding(crate::specs::StateEncoding::cpu_from_bytes))]
fn decode_cpu(bytes: &[u8]) -> Cpu
    ensures { result ≡ cpu_from_bytes bytes.now }
{
    Cpu {
        counter: u16_at(bytes, 0),
        registers: decode_registers(bytes),
        psu: byte(bytes, 9),
        psl: byte(bytes, 10),
        returns: decode_returns(bytes),
    }
}

// The state that bytes hold; bytes past the end count as 0.
#[tactic(auto, unfolding(crate::specs::StateEncoding::state_from_bytes))]
pub fn decode_state(bytes: &[u8]) -> State
    ensures { result ≡ state_from_bytes bytes.now }
{
    State {
        cpu: decode_cpu(bytes),
        status: byte(bytes, 27),
        filled: u16_at(bytes, 28),
        read: u16_at(bytes, 30),
        written: u16_at(bytes, 32),
    }
}

// A state's bytes, one field behind the other.
pub fn encode_state(state: State) -> [u8; STATE_LENGTH]
    ensures value { result ≡ state_bytes state }
    ensures result_value { state_from_bytes result ≡ state }
{
    let cpu = state.cpu;
    let registers = cpu.registers;
    let returns = cpu.returns;
    let mut bytes = [0u8; STATE_LENGTH];
    put_u16(&mut bytes, 0, cpu.counter);
    copy(&mut bytes, 2, &registers);
    put_byte(&mut bytes, 9, cpu.psu);
    put_byte(&mut bytes, 10, cpu.psl);
    put_u16s(&mut bytes, 11, &returns);
    put_byte(&mut bytes, 27, state.status);
    put_u16(&mut bytes, 28, state.filled);
    put_u16(&mut bytes, 30, state.read);
    put_u16(&mut bytes, 32, state.written);
    bytes
}
