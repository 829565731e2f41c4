// A machine's state as bytes, and back; and a table.
#![tactic(auto)]

mod state_encoding;
mod table_encoding;

pub use state_encoding::{STATE_LENGTH, decode_state, encode_state};
pub use table_encoding::{
    SLOT_LENGTH, SLOTS_OFFSET, TABLE_LENGTH, decode_slot, decode_table, store_table,
};
