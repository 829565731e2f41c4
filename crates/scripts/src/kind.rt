// What an entry asks, by make_data.py's numbers.

#[derive(Clone, Copy, Debug, PartialEq, Eq)]
pub(crate) enum Kind {
    NewScript,
    New,
    Lend,
    Poke,
    Unpoke,
    Load,
    Unload,
    Feed,
    Drain,
    Run,
    Report,
    State,
    DrainLent,
    Backlog,
    Fit,
    Free,
    Read,
    Write,
}

// A number that is no kind's.
#[derive(Clone, Copy, Debug, PartialEq, Eq)]
pub(crate) struct UnknownKind;

impl TryFrom<u16> for Kind {
    type Error = UnknownKind;

    fn try_from(number: u16) -> Result<Kind, UnknownKind> {
        Ok(match number {
            0 => Kind::NewScript,
            1 => Kind::New,
            2 => Kind::Lend,
            3 => Kind::Poke,
            4 => Kind::Unpoke,
            5 => Kind::Load,
            6 => Kind::Unload,
            7 => Kind::Feed,
            8 => Kind::Drain,
            9 => Kind::Run,
            10 => Kind::Report,
            11 => Kind::State,
            12 => Kind::DrainLent,
            13 => Kind::Backlog,
            14 => Kind::Fit,
            15 => Kind::Free,
            16 => Kind::Read,
            17 => Kind::Write,
            _ => return Err(UnknownKind),
        })
    }
}
