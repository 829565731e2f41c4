// An entry: a line of a script, and what it wants; make_data.py gives the layout.
ghost use Rattle.std.specs.Prelude.{◌<◌};

use crate::kind::{Kind, UnknownKind};
use slices::{byte, part, rest, u16_at, u32_at};

// The data from the entry's first byte on: other entries may stand behind it.
#[derive(Clone, Copy)]
pub(crate) struct Entry<'a> {
    data: &'a [u8],
}

impl<'a> Entry<'a> {
    // The length of the numbers at the front.
    const NUMBERS_LENGTH: usize = 20;

    pub(crate) fn at_front(data: &'a [u8]) -> Entry<'a> {
        Entry { data }
    }

    // The length of the entry itself: where the next one starts.
    pub(crate) fn length(self) -> usize
        ensures { 0 < result }
    {
        Self::NUMBERS_LENGTH + self.bytes_length() as usize
    }

    pub(crate) fn kind(self) -> Result<Kind, UnknownKind> {
        Kind::try_from(u16_at(self.data, 0))
    }

    pub(crate) fn line(self) -> u16 {
        u16_at(self.data, 2)
    }

    pub(crate) fn slot(self) -> usize {
        u16_at(self.data, 4) as usize
    }

    // The number of the refusal that the entry wants, 0 for none.
    pub(crate) fn refusal(self) -> u16 {
        u16_at(self.data, 6)
    }

    // The number: a location, the length of a memory or a buffer, a count of rounds, a field's value, a check sum or the free total;
    // by width.
    pub(crate) fn number(self) -> u32 {
        u32_at(self.data, 8)
    }

    pub(crate) fn number_u16(self) -> u16 {
        u16_at(self.data, 10)
    }

    pub(crate) fn number_u8(self) -> u8 {
        byte(self.data, 11)
    }

    // Which field a poke sets, by its place in the layout's order.
    pub(crate) fn field(self) -> u16 {
        u16_at(self.data, 12)
    }

    // The count that the entry wants: how many bytes are filled, or the start that a fit answers.
    pub(crate) fn count(self) -> u16 {
        u16_at(self.data, 12)
    }

    fn bytes_length(self) -> u16 {
        u16_at(self.data, 14)
    }

    // Of a poke: it is of the same group as the poke before it. Of a state: its two numbers about free bytes are compared.
    pub(crate) fn flag(self) -> bool {
        u16_at(self.data, 16) == 1
    }

    pub(crate) fn bytes(self) -> &'a [u8] {
        part(
            self.data,
            Self::NUMBERS_LENGTH,
            self.bytes_length() as usize,
        )
    }

    // The size that a fit is asked about: eight bytes.
    pub(crate) fn size(self) -> usize {
        let size = rest(self.data, Self::NUMBERS_LENGTH);
        u32_at(size, 0) as usize * 4294967296 + u32_at(size, 4) as usize
    }
}
