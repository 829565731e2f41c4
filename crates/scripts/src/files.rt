// The reader and the writer of pattern files, with what an entry gives them and wants of them; make_data.py gives the layout.
use crate::comparison::Comparison;
use crate::crc::crc32;
use crate::entry::Entry;
use common::{Address, Layout, Refusal};
use pattern::Parameters;
use slices::{byte, copy, fill, front, part, rest, u16_at, u32_at};

// The parameters that a write is given, or that a read must answer: read by the data's layout, and not by the product's own decoder, which is
// on trial here.
fn parameters(entry: Entry) -> Parameters {
    let given = entry.bytes();
    Parameters {
        layout: Layout {
            window: u16_at(given, 0),
            input: u16_at(given, 2),
            output: u16_at(given, 4),
            locked: u16_at(given, 9),
        },
        start: Address(u16_at(given, 6)),
        quantum: byte(given, 8),
    }
}

// The part of the file whose start and length stand at `at`.
fn wanted_body<'a>(entry: Entry<'a>, file: &'a [u8], at: usize) -> &'a [u8] {
    let stretch = rest(entry.bytes(), at);
    part(
        file,
        u16_at(stretch, 0) as usize,
        u16_at(stretch, 2) as usize,
    )
}

// Whether the reader answers the parameters and the bodies that the entry wants; a refused file has no parameters, and its bodies
// are empty.
pub(crate) fn compare_read(entry: Entry) -> Comparison {
    let file = rest(entry.bytes(), 19);
    let answer = pattern::read(file);
    let same = answer.map_or(true, |got| got == parameters(entry));
    let same_bodies = pattern::code_body(file) == wanted_body(entry, file, 11)
        && pattern::input_body(file) == wanted_body(entry, file, 15);
    Comparison::of_call(entry, answer.err(), same && same_bodies)
}

// Puts the bytes of an image or of an input to the front of `target`, and answers them: the byte at their end throughout, and then those
// that are stored. Their length and that byte stand at the front of `numbers`.
fn spread<'a>(target: &'a mut [u8], numbers: &[u8], stored: &[u8]) -> &'a [u8] {
    let length = u16_at(numbers, 0) as usize;
    fill(target, 0, length, byte(numbers, 2));
    copy(target, 0, stored);
    front(target, length)
}

// Writes the file that the entry gives the parameters, the image and the input of.
fn write_file(entry: Entry, buffer: &mut [u8]) -> Result<usize, Refusal> {
    let given = entry.bytes();
    let stored = rest(given, 25);
    let stored_length = u16_at(given, 18) as usize;
    let mut image = [0u8; 32769];
    let mut input = [0u8; 4096];
    pattern::write(
        parameters(entry),
        spread(&mut image, rest(given, 15), front(stored, stored_length)),
        spread(&mut input, rest(given, 20), rest(stored, stored_length)),
        buffer,
    )
}

// The buffer has room for the longest file, and starts as EEh throughout. Its lent part is compared by its check sum.
pub(crate) fn compare_write(entry: Entry) -> Comparison {
    let mut room = [0xEEu8; 36897];
    let Some(buffer) = room.get_mut(..entry.number() as usize) else {
        return Comparison::without_call(false);
    };
    let answer = write_file(entry, buffer);
    let same = answer.unwrap_or(0) == entry.count() as usize
        && crc32(buffer) == u32_at(entry.bytes(), 11);
    Comparison::of_call(entry, answer.err(), same)
}
