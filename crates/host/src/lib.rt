// Entry points for a host in C: numbers and byte slices, each slice a pointer and then its length.
#![tactic(auto)]

mod bench_run;
mod host_calls;
mod pattern_files;
mod upgrading;

pub use bench_run::pf_listing;
pub use host_calls::{
    pf_backlog, pf_drain, pf_feed, pf_fit, pf_load, pf_new, pf_report, pf_run, pf_unload,
};
pub use pattern_files::{pf_code, pf_input, pf_read, pf_write};
pub use upgrading::pf_upgrade;
