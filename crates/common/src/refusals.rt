// Why a call is refused.
ghost use Rattle.std.specs.Prelude.{◌≡◌};
ghost use Rattle.common.specs.Refusals.{refusal_number};

// Why a call is refused, in the order of document 01's table "Turned back, by place"; the last two are document 02's. The names are those of
// the header for C, which knows the numbers alone.
#[derive(Clone, Copy, Debug, PartialEq, Eq)]
pub enum Refusal {
    NotSound = 1,
    OtherLength = 2,
    NoSlot = 3,
    Taken = 4,
    Empty = 5,
    Frame = 6,
    Form = 7,
    Board = 8,
    Values = 9,
    Code = 10,
    Input = 11,
    PastEnd = 12,
    Meets = 13,
    Unread = 14,
    NoInput = 15,
    Short = 16,
    Size = 17,
    NoExtent = 18,
}

impl Refusal {
    // The number in that table.
    pub fn number(self) -> u8
        ensures { result ≡ refusal_number self }
    {
        self as u8
    }
}
