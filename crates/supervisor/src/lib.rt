// The calls on eight slots over one memory: loading, unloading, feeding, draining and running.
#![tactic(auto)]

mod calls;
mod draining;
mod feeding;
mod loading;
mod location;
mod resuming;
mod unloading;

pub use calls::run;
pub use draining::{Drained, drain};
pub use feeding::feed;
pub use loading::load;
pub use unloading::unload;
