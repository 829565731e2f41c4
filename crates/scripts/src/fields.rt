// The fields of a slot in the scripts' order, and the table's own numbers: compared, and set by hand.
use crate::entry::Entry;
use common::Location;
use queries::Report;
use slices::{rest, u16_at, u32_at};
use table::{Slot, Table};

// Whether these numbers stand one behind the other, two bytes each.
fn same_numbers(numbers: &[u16], want: &[u8]) -> bool {
    numbers
        .iter()
        .enumerate()
        .all(|(i, number)| *number == u16_at(want, 2 * i))
}

fn same_slot(slot: &Slot, want: &[u8]) -> bool {
    let partition = slot.partition;
    let layout = partition.layout;
    let state = slot.state;
    let cpu = state.cpu;
    partition.base.0 == u16_at(want, 0) as u32
        && same_numbers(&[layout.window, layout.input, layout.output], rest(want, 2))
        && same_numbers(
            &[partition.quantum as u16, state.status as u16],
            rest(want, 8),
        )
        && same_numbers(
            &[cpu.counter, cpu.psu as u16, cpu.psl as u16],
            rest(want, 12),
        )
        && same_numbers(&cpu.registers.map(u16::from), rest(want, 18))
        && same_numbers(&cpu.returns, rest(want, 32))
        && same_numbers(&[state.filled, state.read, state.written], rest(want, 48))
        && layout.locked == u16_at(want, 54)
}

// Whether the table has these two numbers about free bytes, the widest in four bytes.
pub(crate) fn same_free(table: &Table, free: u32, widest: &[u8]) -> bool {
    table.free == free && table.widest == u32_at(widest, 0)
}

pub(crate) fn same_slots(table: &Table, want: &[u8]) -> bool {
    table
        .slots
        .iter()
        .enumerate()
        .all(|(k, slot)| same_slot(slot, rest(want, 56 * k)))
}

pub(crate) fn same_report(report: Report, want: &[u8]) -> bool {
    let numbers = [
        report.status as u16,
        report.counter,
        report.psu as u16,
        report.psl as u16,
    ];
    same_numbers(&numbers, want) && same_numbers(&report.registers.map(u16::from), rest(want, 8))
}

// Sets the field that the entry names, by its place in the layout's order: of its slot, or of the table itself. What there is not is not set.
pub(crate) fn set_field(table: &mut Table, entry: Entry) {
    match entry.field() {
        28 => table.size = entry.number(),
        29 => table.free = entry.number(),
        30 => table.widest = entry.number(),
        field => {
            if let Some(slot) = table.slots.get_mut(entry.slot()) {
                set_slot_field(slot, field, entry);
            }
        }
    }
}

// The numbers are matched here and nowhere else, each beside its field: an enum of fields would list them twice.
fn set_slot_field(slot: &mut Slot, field: u16, entry: Entry) {
    let number = entry.number_u16();
    let byte = entry.number_u8();
    let state = &mut slot.state;
    match field {
        0 => slot.partition.base = Location(entry.number()),
        1 => slot.partition.layout.window = number,
        2 => slot.partition.layout.input = number,
        3 => slot.partition.layout.output = number,
        4 => slot.partition.quantum = byte,
        5 => state.status = byte,
        6 => state.cpu.counter = number,
        7 => state.cpu.psu = byte,
        8 => state.cpu.psl = byte,
        9..=15 => state.cpu.registers[field as usize - 9] = byte,
        16..=23 => state.cpu.returns[field as usize - 16] = number,
        24 => state.filled = number,
        25 => state.read = number,
        26 => state.written = number,
        27 => slot.partition.layout.locked = number,
        _ => {}
    }
}
