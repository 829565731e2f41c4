// The 2650's table of codes: the instruction of each first byte, and how many bytes an instruction has.
// It runs nothing, and serves whoever reads code: a machine, or a check of a pattern that is not run.
#![tactic(auto)]

mod decode;

pub use decode::{Access, BranchKind, BranchMode, Instruction, Mode};
