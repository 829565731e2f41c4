// The bench run: a pattern file in, its text out.
#![tactic(auto)]

mod bench_listing;
mod text;
mod until_stopped;

pub use bench_listing::{MAX_FILE, MAX_TEXT, MEMORY_LENGTH, listing};
