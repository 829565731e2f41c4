// A table as an earlier version kept it, brought to today's form. Its length tells the version.
ghost use Rattle.std.specs.Prelude.{◌≡◌, ◌+◌, ◌*◌, ◌≤◌, length};
ghost use Rattle.encoding.specs.TableEncoding.{slot_from_bytes};
ghost use Rattle.earlier.specs.EarlierTable.{unlocked_slot_length, unlocked_table_length, uncounted_table_length, with_no_lock, unlocked_slots_from_bytes, unlocked_table_from_bytes, uncounted_table_from_bytes, statuses_up_to, upgrade_of};
ghost use Rattle.common.specs.Refusals.{refusal_by};
ghost use Rattle.slices.specs.Slices.{part_of};
ghost use Rattle.table.specs.Table.{answer, answer_in};
ghost use Rattle.table.specs.TableConditions.{table_conditions};

use common::Refusal;
use encoding::{SLOT_LENGTH, SLOTS_OFFSET, TABLE_LENGTH, decode_slot, decode_table};
use registers::Status;
use slices::{copy, front, part, put_u16, rest, u32_at};
use table::{RefusedCall, Slot, Table, check_table};

// Before a slot kept its lock: how many bytes a slot and a table had, the last status, and where today's slot has the lock.
const UNLOCKED_SLOT_LENGTH: usize = 45;

const UNLOCKED_TABLE_LENGTH: usize = 372;

const LAST_UNLOCKED_STATUS: u8 = Status::Port as u8;

const LOCK_OFFSET: usize = 10;

// Before a table kept its free bytes: how many bytes it had, and where its slots stood.
const UNCOUNTED_TABLE_LENGTH: usize = 364;

const UNCOUNTED_SLOTS_OFFSET: usize = 4;

// The slot of 45 bytes at an offset: they are brought to today's form, with nothing locked.
fn decode_unlocked_slot(bytes: &[u8], at: usize) -> Slot
    requires { at + unlocked_slot_length ≤ length bytes.now }
    ensures { result ≡ slot_from_bytes (with_no_lock (part_of bytes.now at unlocked_slot_length)) }
{
    let own = part(bytes, at, UNLOCKED_SLOT_LENGTH);
    let mut today = [0u8; SLOT_LENGTH];
    copy(&mut today, 0, front(own, LOCK_OFFSET));
    put_u16(&mut today, LOCK_OFFSET, 0);
    copy(&mut today, LOCK_OFFSET + 2, rest(own, LOCK_OFFSET));
    decode_slot(&today, 0)
}

// The eight such slots whose bytes start at an offset.
#[tactic(auto, using(slices::specs::PieceLaws::tabulated_none, slices::specs::PieceLaws::tabulated_next, slices::specs::PieceLaws::tabulated_all))]
fn decode_unlocked_slots(bytes: &[u8], at: usize) -> [Slot; 8]
    requires { at + 8 * unlocked_slot_length ≤ length bytes.now }
    ensures { result ≡ unlocked_slots_from_bytes at bytes.now }
{
    // A loop, and no `array::from_fn`, as in `decode_slots` of crate encoding: the check does not find that proof for slots.
    let mut slots = [Slot::empty(); Table::SLOTS];
    for (k, slot) in slots.iter_mut().enumerate() {
        *slot = decode_unlocked_slot(bytes, at + UNLOCKED_SLOT_LENGTH * k);
    }
    slots
}

#[tactic(auto, unfolding(crate::specs::EarlierTable::unlocked_table_from_bytes))]
fn decode_unlocked(bytes: &[u8]) -> Table
    requires { length bytes.now ≡ unlocked_table_length }
    ensures { result ≡ unlocked_table_from_bytes bytes.now }
{
    Table {
        size: u32_at(bytes, 0),
        free: u32_at(bytes, 4),
        widest: u32_at(bytes, 8),
        slots: decode_unlocked_slots(bytes, SLOTS_OFFSET),
    }
}

#[tactic(auto, unfolding(crate::specs::EarlierTable::uncounted_table_from_bytes))]
fn decode_uncounted(bytes: &[u8]) -> Table
    requires { length bytes.now ≡ uncounted_table_length }
    ensures { result ≡ uncounted_table_from_bytes bytes.now }
{
    let slots = decode_unlocked_slots(bytes, UNCOUNTED_SLOTS_OFFSET);
    Table {
        size: u32_at(bytes, 0),
        free: 0,
        widest: 0,
        slots,
    }
}

// Whether no slot has a status above the last that its version had.
fn statuses_up_to(last: u8, table: Table) -> bool
    ensures { result ≡ statuses_up_to last table }
{
    table.slots.iter().all(|s| s.state.status <= last)
}

// The table as it is, if it is sound by the rules of a table. Not inlined: the compiler would split the table into its fields.
#[inline(never)]
fn judged(table: Table) -> Result<Table, RefusedCall>
    ensures { answer_in result ≡ answer (refusal_by (table_conditions table)) table }
{
    check_table(table).map_err(|refusal| RefusedCall { refusal, table })?;
    Ok(table)
}

// The table that `old` holds, in today's form. It is refused if it is not sound by the rules of its version.
pub fn upgrade_table(old: &[u8]) -> Result<Table, RefusedCall>
    ensures { answer_in result ≡ upgrade_of old.now }
{
    let refusal = Refusal::NotSound;
    match old.len() {
        UNCOUNTED_TABLE_LENGTH => {
            let table = decode_uncounted(old);
            if !statuses_up_to(LAST_UNLOCKED_STATUS, table) {
                return Err(RefusedCall { refusal, table });
            }
            table::recount(table)
        }
        UNLOCKED_TABLE_LENGTH => {
            let table = decode_unlocked(old);
            if !statuses_up_to(LAST_UNLOCKED_STATUS, table) {
                return Err(RefusedCall { refusal, table });
            }
            judged(table)
        }
        TABLE_LENGTH => judged(decode_table(old)),
        _ => Err(RefusedCall {
            refusal,
            table: decode_table(old),
        }),
    }
}
