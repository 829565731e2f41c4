// A run of bytes of a memory.

// The bytes of memory from `start` on, up to `end` and without it.
#[derive(Clone, Copy, Debug, Default, PartialEq, Eq)]
pub struct Extent {
    pub start: usize,
    pub end: usize,
}
