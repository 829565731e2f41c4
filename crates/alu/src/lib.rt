// What the 2650's instructions make of bytes: sums, compares, tests, rotates and decimal adjust, and the PSL that each leaves.
// It knows no code of an instruction, no register and no window.
#![tactic(auto)]

mod alu;
mod psl;

pub use alu::{
    AluResult, Operation, decimal_adjust, load_result, operation_result, rotate_left, rotate_right,
    test_psl,
};
