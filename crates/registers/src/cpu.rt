// The machine's registers.
ghost use Rattle.std.specs.Prelude.{◌≡◌};
ghost use Rattle.registers.specs.Cpu.{fresh_cpu, stored_psu};

use common::Address;

// The machine's registers, as they are kept between runs (document 01's machine).
// Registers: R0, R1 to R3 of bank 0, R1 to R3 of bank 1. PSU is stored without Sense.
#[derive(Clone, Copy, Debug, PartialEq, Eq)]
pub struct Cpu {
    pub counter: u16,
    pub registers: [u8; 7],
    pub psu: u8,
    pub psl: u8,
    pub returns: [u16; 8],
}

impl Cpu {
    // Before its first instruction, at `start`.
    #[tactic(auto, unfolding(crate::specs::CpuDefinitions::cpu_definitions))]
    pub fn fresh(start: Address) -> Cpu
        ensures { result ≡ fresh_cpu start }
    {
        Cpu {
            counter: start.0,
            registers: [0; 7],
            psu: 0,
            psl: 0,
            returns: [0; 8],
        }
    }
}

// PSU as it is stored: without Sense, and without the bits that are always zero.
pub fn stored_psu(v: u8) -> u8
    ensures { result ≡ stored_psu v }
{
    v / 32 % 4 * 32 + v % 8
}
