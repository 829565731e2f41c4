// A table and its memory: what refuses a call with both, and the rounds that its machines make.
#![tactic(auto)]

mod conditions;
mod running;

pub use conditions::{check_system, check_system_empty_slot, check_system_loaded_slot};
pub use running::run;
