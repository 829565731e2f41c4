// Draining over one slot that is lent by reference (document 01, "Floor and bays": collecting over one station's record).
#![tactic(auto)]

mod lent;

pub use lent::{SlotAnswer, drain_lent, drain_slot};
