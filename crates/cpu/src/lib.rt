// The Signetics 2650, and one such machine over its own bytes: window, input buffer, output buffer.
// It knows no memory, no table and no neighbour. A caller needs `step`, `run` and the structs that they take.
#![tactic(auto)]

mod branch;
mod instruction;
mod machine;
mod partition;
mod port;
mod psw;

pub use machine::{run, step};
