// The 2650's registers: as they are kept between runs, packed into words while they run, and what the arithmetic does to them.
// It knows no code of an instruction and no window. What a machine keeps beside its bytes, `State`, stands here too.
#![tactic(auto)]

mod alu_results;
mod cpu;
mod packed_cpu;
mod state;

pub use cpu::{Cpu, stored_psu};
pub use packed_cpu::PackedCpu;
pub use state::{State, Status};
