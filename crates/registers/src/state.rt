// A machine's state: what is kept of it between runs.
ghost use Rattle.std.specs.Prelude.{◌≡◌};
ghost use Rattle.registers.specs.State.{empty_state, status_number};

use crate::cpu::Cpu;

// Document 01's statuses; the last is document 02's. The names are those of the header for C, which knows the numbers alone.
#[derive(Clone, Copy, Debug, PartialEq, Eq)]
pub enum Status {
    Empty = 0,
    Running = 1,
    Halted = 2,
    WantsInput = 3,
    OutputFull = 4,
    Unknown = 5,
    Outside = 6,
    Port = 7,
    Locked = 8,
}

impl Status {
    // The number in those documents.
    pub fn number(self) -> u8
        ensures { result ≡ status_number self }
    {
        self as u8
    }
}

// What is kept of a machine beside its bytes: document 01's status and the positions in its two buffers. The status is a number, since the
// bytes of a table may hold any: crate table says which are sound.
#[derive(Clone, Copy, Debug, PartialEq, Eq)]
pub struct State {
    pub cpu: Cpu,
    pub status: u8,
    pub filled: u16,
    pub read: u16,
    pub written: u16,
}

impl State {
    // The last of document 01's statuses.
    pub const LAST_STATUS: u8 = Status::Locked as u8;

    // Status 0, and nothing in the buffers.
    pub fn empty(cpu: Cpu) -> State
        ensures { result ≡ empty_state cpu }
    {
        State {
            cpu,
            status: Status::Empty.number(),
            filled: 0,
            read: 0,
            written: 0,
        }
    }
}
