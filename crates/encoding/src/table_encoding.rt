// A table as bytes, and back: one loop over the slots each way.
ghost use Rattle.std.specs.Prelude.{◌≡◌, ◌≤◌, length};
ghost use Rattle.slices.specs.Slices.{copied, part_of};
ghost use Rattle.encoding.specs.TableEncoding.{partition_from_bytes, partition_bytes, slot_bytes, slot_from_bytes, slot_length, slots_from_bytes, slots_offset, head_bytes, stored_table, table_from_bytes, table_bytes, table_length};

use crate::state_encoding::{STATE_LENGTH, decode_state, encode_state};
use common::{Layout, Location};
use slices::{byte, copy, put_byte, put_u16, put_u32, u16_at, u32_at};
use table::{Partition, Slot, Table};

// How many bytes a partition and a slot have.
const PARTITION_LENGTH: usize = 13;

pub const SLOT_LENGTH: usize = PARTITION_LENGTH + STATE_LENGTH;

// Where the first slot stands.
pub const SLOTS_OFFSET: usize = 12;

// How many bytes a table has.
pub const TABLE_LENGTH: usize = SLOTS_OFFSET + Table::SLOTS * SLOT_LENGTH;

#[tactic(auto, unfolding(crate::specs::TableEncoding::partition_from_bytes))]
fn decode_partition(bytes: &[u8]) -> Partition
    ensures { result ≡ partition_from_bytes bytes.now }
{
    let layout = Layout {
        window: u16_at(bytes, 4),
        input: u16_at(bytes, 6),
        output: u16_at(bytes, 8),
        locked: u16_at(bytes, 10),
    };
    let quantum = byte(bytes, 12);
    Partition {
        base: Location(u32_at(bytes, 0)),
        layout,
        quantum,
    }
}

// The slot whose bytes start at an offset.
#[tactic(auto, unfolding(crate::specs::TableEncoding::slot_from_bytes))]
pub fn decode_slot(bytes: &[u8], at: usize) -> Slot
    ensures { result ≡ slot_from_bytes (part_of bytes.now at slot_length) }
{
    let own = slices::part(bytes, at, SLOT_LENGTH);
    Slot {
        partition: decode_partition(own),
        state: decode_state(slices::rest(own, PARTITION_LENGTH)),
    }
}

fn decode_slots(bytes: &[u8]) -> [Slot; Table::SLOTS]
    ensures { result ≡ slots_from_bytes bytes.now }
{
    // A loop, and no `array::from_fn` as for the registers: the check does not find that proof for slots.
    let mut slots = [decode_slot(bytes, SLOTS_OFFSET); Table::SLOTS];
    for (k, slot) in slots.iter_mut().enumerate() {
        *slot = decode_slot(bytes, SLOTS_OFFSET + SLOT_LENGTH * k);
    }
    slots
}

#[tactic(auto, unfolding(crate::specs::TableEncoding::table_from_bytes))]
pub fn decode_table(bytes: &[u8]) -> Table
    ensures { result ≡ table_from_bytes bytes.now }
{
    Table {
        size: u32_at(bytes, 0),
        free: u32_at(bytes, 4),
        widest: u32_at(bytes, 8),
        slots: decode_slots(bytes),
    }
}

fn encode_partition(partition: Partition) -> [u8; PARTITION_LENGTH]
    ensures { result ≡ partition_bytes partition }
{
    let layout = partition.layout;
    let mut bytes = [0u8; PARTITION_LENGTH];
    put_u32(&mut bytes, 0, partition.base.0);
    put_u16(&mut bytes, 4, layout.window);
    put_u16(&mut bytes, 6, layout.input);
    put_u16(&mut bytes, 8, layout.output);
    put_u16(&mut bytes, 10, layout.locked);
    put_byte(&mut bytes, 12, partition.quantum);
    bytes
}

fn encode_slot(slot: Slot) -> [u8; SLOT_LENGTH]
    ensures { result ≡ slot_bytes slot }
{
    let mut bytes = [0u8; SLOT_LENGTH];
    copy(&mut bytes, 0, &encode_partition(slot.partition));
    copy(&mut bytes, PARTITION_LENGTH, &encode_state(slot.state));
    bytes
}

// Writes the three numbers before the slots.
fn put_head(bytes: &mut [u8], table: Table)
    requires { slots_offset ≤ length bytes.old }
    ensures { bytes.new ≡ copied bytes.old 0 (head_bytes table) }
{
    put_u32(bytes, 0, table.size);
    put_u32(bytes, 4, table.free);
    put_u32(bytes, 8, table.widest);
}

fn put_table(bytes: &mut [u8], table: Table)
    requires { length bytes.old ≡ table_length }
    ensures { bytes.new ≡ table_bytes table }
{
    put_head(bytes, table);
    for (k, slot) in table.slots.iter().enumerate() {
        copy(bytes, SLOTS_OFFSET + SLOT_LENGTH * k, &encode_slot(*slot));
    }
}

// Stores a table in a buffer of its length. A buffer of another length is left.
#[tactic(auto, unfolding(crate::specs::TableEncoding::stored_table, common::specs::ConditionDefinitions::condition_definitions))]
pub fn store_table(bytes: &mut [u8], table: Table)
    ensures { bytes.new ≡ stored_table bytes.old table }
{
    if bytes.len() == TABLE_LENGTH {
        put_table(bytes, table);
    }
}
