// From a pattern file to a fresh machine: its state, and the bytes of its partition.
#![tactic(auto)]

mod fresh;

pub use fresh::{fresh_state, put_fresh_bytes};
