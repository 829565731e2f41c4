// Two quantities that are never mistaken for each other: crate supervisor alone makes the second of the first, through a partition's base.

// A machine address: a place in a window, and never one in memory.
#[derive(Clone, Copy, Debug, PartialEq, Eq)]
pub struct Address(pub u16);

// A place in memory (document 01's floor place): document 000's relocated location.
#[derive(Clone, Copy, Debug, PartialEq, Eq)]
pub struct Location(pub u32);
