// The registers of a run, packed into words.
#![tactic(auto, using(crate::proofs::PackedCpuLaws::packed_laws), unfolding(crate::specs::PackedCpu::packed_definitions))]

ghost use Rattle.std.specs.Prelude.{◌≡◌, ◌<◌, ◌≤◌, ◌+◌, ◌*◌, ◌^◌};
ghost use Rattle.registers.specs.PackedCpu.{part_at, set_part, byte_at, quarters, register_bytes, in_bank_order, cpu_of};
ghost use Rattle.alu.specs.Psl.{bit_rs};
ghost use Rattle.registers.specs.Cpu.{counter_of, psu_of, psl_of, register_of, return_of, with_counter, with_register, with_psu, with_psl, with_return, call_of, return_from_call_of};

use crate::cpu::Cpu;
use common::Address;

// A `Cpu` while it runs: whole words only, so that the compiler keeps each in a register of its own.
// `registers` has R0 in its lowest byte, then R1 to R3 of the bank in use, then those of the other bank.
// `low` and `high` have four return addresses each. No other file touches a field. It has no `Model`: its view `cpu_of` leaves out what
// stands above each part, and a copied struct may have only a view that leaves nothing out.
#[derive(Clone, Copy)]
pub struct PackedCpu {
    counter: u64,
    psu: u64,
    psl: u64,
    registers: u64,
    low: u64,
    high: u64,
}

// Part i of a word, in parts of WIDTH bits: bytes hold registers, and quarters of a word return addresses.
fn part_at<const WIDTH: u64>(x: u64, i: u64) -> u64
    requires width { WIDTH < 64 }
    requires inside { WIDTH * i + WIDTH ≤ 64 }
    ensures { result ≡ part_at WIDTH x i }
{
    (x >> (WIDTH * i)) % (1 << WIDTH)
}

// The old part is taken out and the new one put in by one exclusive or.
fn set_part<const WIDTH: u64>(x: u64, i: u64, v: u64) -> u64
    requires width { WIDTH < 64 }
    requires inside { WIDTH * i + WIDTH ≤ 64 }
    requires value { v < 2 ^ WIDTH }
    ensures { result ≡ set_part WIDTH x i v }
{
    let old = part_at::<WIDTH>(x, i);
    x ^ ((old ^ v) << (WIDTH * i))
}

// The register word with its two banks exchanged.
fn swap_banks(x: u64) -> u64
    ensures { register_bytes result ≡ in_bank_order 1 (register_bytes x) }
{
    x % 256 + x / 4294967296 % 16777216 * 256 + x / 256 % 16777216 * 4294967296
}

#[tactic(auto, unfolding(crate::specs::PackedCpu::register_bytes))]
fn pack_registers(registers: [u8; 7]) -> u64
    ensures { register_bytes result ≡ registers }
{
    let [a, b, c, d, e, f, g] = registers;
    u64::from_le_bytes([a, b, c, d, e, f, g, 0])
}

fn pack_returns(returns: [u16; 4]) -> u64
    ensures { quarters result ≡ returns }
{
    let [a, b, c, d] = returns;
    a as u64 + b as u64 * 65536 + c as u64 * 4294967296 + d as u64 * 281474976710656
}

impl PackedCpu {
    pub fn counter(self) -> Address
        ensures { result ≡ counter_of (cpu_of self) }
    {
        Address((self.counter % 65536) as u16)
    }

    pub fn psu(self) -> u8
        ensures { result ≡ psu_of (cpu_of self) }
    {
        (self.psu % 256) as u8
    }

    pub fn psl(self) -> u8
        ensures { result ≡ psl_of (cpu_of self) }
    {
        (self.psl % 256) as u8
    }

    pub fn register(self, r: u8) -> u8
        ensures { result ≡ register_of (cpu_of self) r }
    {
        part_at::<8>(self.registers, (r % 4) as u64) as u8
    }

    pub fn with_register(self, r: u8, v: u8) -> PackedCpu
        ensures { cpu_of result ≡ with_register (cpu_of self) r v }
    {
        PackedCpu {
            registers: set_part::<8>(self.registers, (r % 4) as u64, v as u64),
            ..self
        }
    }

    pub fn with_counter(self, a: Address) -> PackedCpu
        ensures { cpu_of result ≡ with_counter (cpu_of self) a }
    {
        PackedCpu {
            counter: a.0 as u64,
            ..self
        }
    }

    pub fn with_psu(self, p: u8) -> PackedCpu
        ensures { cpu_of result ≡ with_psu (cpu_of self) p }
    {
        PackedCpu {
            psu: p as u64,
            ..self
        }
    }

    // PSL with RS as it is, so that both banks stay where they are.
    pub(crate) fn with_psl_same_bank(self, p: u8) -> PackedCpu
        requires { bit_rs p ≡ bit_rs (psl_of (cpu_of self)) }
        ensures { cpu_of result ≡ with_psl (cpu_of self) p }
    {
        PackedCpu {
            psl: p as u64,
            ..self
        }
    }

    pub fn with_psl(self, p: u8) -> PackedCpu
        ensures { cpu_of result ≡ with_psl (cpu_of self) p }
    {
        let old = self.psl();
        if p / 16 % 2 == old / 16 % 2 {
            return self.with_psl_same_bank(p);
        }
        PackedCpu {
            registers: swap_banks(self.registers),
            psl: p as u64,
            ..self
        }
    }

    fn return_at(self, sp: u8) -> Address
        requires { sp < 8 }
        ensures { result ≡ return_of (cpu_of self) sp }
    {
        if sp < 4 {
            Address(part_at::<16>(self.low, sp as u64) as u16)
        } else {
            Address(part_at::<16>(self.high, (sp - 4) as u64) as u16)
        }
    }

    fn with_return(self, sp: u8, a: Address) -> PackedCpu
        requires { sp < 8 }
        ensures { cpu_of result ≡ with_return (cpu_of self) sp a }
    {
        if sp < 4 {
            PackedCpu {
                low: set_part::<16>(self.low, sp as u64, a.0 as u64),
                ..self
            }
        } else {
            PackedCpu {
                high: set_part::<16>(self.high, (sp - 4) as u64, a.0 as u64),
                ..self
            }
        }
    }

    pub fn call(self, back: Address) -> PackedCpu
        ensures { cpu_of result ≡ call_of (cpu_of self) back }
    {
        let u = self.psu();
        let sp = (u % 8 + 1) % 8;
        let n = self.with_return(sp, back);
        n.with_psu(u / 8 * 8 + sp)
    }

    pub fn return_from_call(self) -> PackedCpu
        ensures { cpu_of result ≡ return_from_call_of (cpu_of self) }
    {
        let u = self.psu();
        let sp = u % 8;
        let a = self.return_at(sp);
        let n = self.with_counter(a);
        n.with_psu(u / 8 * 8 + (sp + 7) % 8)
    }

    // The registers with bank 0 first and PSU above them, as they stand side by side in `Cpu`: one word, so that the compiler stores it
    // at once. Each bank order adds PSU in a sum of its own: from a sum after both it would part the word again, and store bytes.
    fn registers_and_psu(self) -> u64
        ensures registers { register_bytes result ≡ in_bank_order (bit_rs (psl_of (cpu_of self))) (register_bytes self.registers) }
        ensures psu { byte_at result 7 ≡ psu_of (cpu_of self) }
    {
        let p = self.psl();
        let u = self.psu() as u64;
        let x = self.registers;
        if p / 16 % 2 == 0 {
            x % 72057594037927936 + u * 72057594037927936
        } else {
            x % 256
                + x / 4294967296 % 16777216 * 256
                + (x / 256 % 16777216 + u * 16777216) * 4294967296
        }
    }
}

// PSL is set last: from RS 0, it puts the bank in use first.
impl From<Cpu> for PackedCpu {
    ghost from_gives = { λ cpu result. cpu_of result ≡ cpu };

    #[tactic(auto, using(crate::proofs::PackedCpuLaws::packed_whole, crate::proofs::PackedCpuLaws::return_list_elements))]
    fn from(cpu: Cpu) -> PackedCpu {
        let [a, b, c, d, e, f, g, h] = cpu.returns;
        let packed = PackedCpu {
            counter: cpu.counter as u64,
            psu: cpu.psu as u64,
            psl: 0,
            registers: pack_registers(cpu.registers),
            low: pack_returns([a, b, c, d]),
            high: pack_returns([e, f, g, h]),
        };
        packed.with_psl(cpu.psl)
    }
}

impl From<PackedCpu> for Cpu {
    ghost from_gives = { λ m result. result ≡ cpu_of m };

    #[tactic(auto, unfolding(crate::specs::PackedCpu::view_definitions))]
    fn from(m: PackedCpu) -> Cpu {
        let [a, b, c, d, e, f, g, psu] = m.registers_and_psu().to_le_bytes();
        Cpu {
            counter: m.counter().0,
            registers: [a, b, c, d, e, f, g],
            psu,
            psl: m.psl(),
            returns: [
                part_at::<16>(m.low, 0) as u16,
                part_at::<16>(m.low, 1) as u16,
                part_at::<16>(m.low, 2) as u16,
                part_at::<16>(m.low, 3) as u16,
                part_at::<16>(m.high, 0) as u16,
                part_at::<16>(m.high, 1) as u16,
                part_at::<16>(m.high, 2) as u16,
                part_at::<16>(m.high, 3) as u16,
            ],
        }
    }
}
