// The parts of an entry; make_data.py gives the layout.
ghost use Rattle.std.specs.Prelude.{◌<◌};

use common::{Address, Layout};
use pattern::Parameters;
use slices::{byte, part, u16_at};

// The length of the numbers at the front.
const NUMBERS_LENGTH: usize = 28;

// The entry at the front of these bytes.
#[derive(Clone, Copy)]
pub(crate) struct Entry<'a> {
    pub(crate) bytes: &'a [u8],
}

impl<'a> Entry<'a> {
    fn number(self, at: usize) -> usize
        ensures { result < 65536 }
    {
        u16_at(self.bytes, at) as usize
    }

    fn name_length(self) -> usize
        ensures { result < 65536 }
    {
        self.number(0)
    }

    fn text_length(self) -> usize
        ensures { result < 65536 }
    {
        self.number(2)
    }

    fn packed_length(self) -> usize
        ensures { result < 65536 }
    {
        self.number(4)
    }

    // The length of the entry itself: where the next one starts.
    pub(crate) fn length(self) -> usize
        ensures result_nonzero { 0 < result }
        ensures upper_bound { result < 1048576 }
    {
        NUMBERS_LENGTH + self.name_length() + self.text_length() + self.packed_length()
    }

    // Whether all of the entry is there: data that is cut would be compared as far as it goes.
    pub(crate) fn is_whole(self) -> bool {
        self.length() <= self.bytes.len()
    }

    pub(crate) fn name(self) -> &'a [u8] {
        part(self.bytes, NUMBERS_LENGTH, self.name_length())
    }

    // What the bench run must print.
    pub(crate) fn text(self) -> &'a [u8] {
        part(
            self.bytes,
            NUMBERS_LENGTH + self.name_length(),
            self.text_length(),
        )
    }

    pub(crate) fn packed(self) -> &'a [u8] {
        part(
            self.bytes,
            NUMBERS_LENGTH + self.name_length() + self.text_length(),
            self.packed_length(),
        )
    }

    // What the reader must answer: the number of the refusal, 0 for none, and the parameters.
    pub(crate) fn refusal(self) -> u16 {
        u16_at(self.bytes, 6)
    }

    pub(crate) fn parameters(self) -> Parameters {
        let layout = Layout {
            window: u16_at(self.bytes, 8),
            input: u16_at(self.bytes, 10),
            output: u16_at(self.bytes, 12),
            locked: u16_at(self.bytes, 18),
        };
        Parameters {
            layout,
            start: Address(u16_at(self.bytes, 14)),
            quantum: byte(self.bytes, 17),
        }
    }

    // The parts of the file that must be the bodies of `PC` and `PI`.
    pub(crate) fn code(self, file: &[u8]) -> &[u8] {
        part(file, self.number(20), self.number(22))
    }

    pub(crate) fn input(self, file: &[u8]) -> &[u8] {
        part(file, self.number(24), self.number(26))
    }
}
