// What a step of the 2650 is made of: addresses and fetches, operands and stores, and the ways in which a step ends. It knows no branch, no
// port and no table.
#![tactic(auto)]

mod address;
mod operand;
mod result;

pub use address::{add_wrapping, address_of, fetch, relative, resolve};
pub use operand::operate_on_operand;
pub use result::{
    PackedEffect, PackedStep, address_after, advanced, running, running_after, step_result, stopped,
};
