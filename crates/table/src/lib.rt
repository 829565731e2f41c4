// The table of eight slots, without its memory: which tables are sound, their free bytes, and what refuses a call with a table.
#![tactic(auto)]

mod extents;
mod free_bytes;
mod recounting;
mod sound;
mod table;
mod table_conditions;

pub use extents::Extent;
pub use free_bytes::count_free;
pub use recounting::recount;
pub use sound::is_clear_of_others;
pub use table::{Partition, RefusedCall, Slot, Table};
pub use table_conditions::{check_empty_slot, check_loaded_slot, check_table};
