// One machine as an entry point for C: for measuring, and for tests. It stands in an archive of its own, so that in this one and in
// that of crate host the run of a machine has one caller, and is compiled into it.
#![tactic(auto)]

mod machine_run;
mod rounds;

pub use machine_run::pf_machine_run;
