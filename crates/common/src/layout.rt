// How a partition is divided.
ghost use Rattle.std.specs.Prelude.{◌≡◌};
ghost use Rattle.common.specs.Layout.{layout_size, layout_sound};

use crate::ranges::is_one_to;

// The window first, then the input buffer, then the output buffer (document 01's strips), without gaps: how many bytes each has. And how
// many bytes of the window, from 0 on, no store may touch, 0 if none is locked (document 02, U6).
#[derive(Clone, Copy, Debug, PartialEq, Eq)]
pub struct Layout {
    pub window: u16,
    pub input: u16,
    pub output: u16,
    pub locked: u16,
}

impl Layout {
    // The largest window and the largest capacity; the size of the largest partition, which has both.
    pub const MAX_WINDOW: u16 = 32768;

    pub const MAX_CAPACITY: u16 = 4096;

    pub const MAX_SIZE: usize = 40960;

    // How many bytes the whole partition has.
    pub fn size(self) -> usize
        ensures { result ≡ layout_size self }
    {
        self.window as usize + self.input as usize + self.output as usize
    }

    // Whether each size is in its range, and the lock inside the window.
    pub fn is_sound(self) -> bool
        ensures { result ≡ layout_sound self }
    {
        is_one_to(self.window as usize, Layout::MAX_WINDOW as usize)
            & is_one_to(self.input as usize, Layout::MAX_CAPACITY as usize)
            & is_one_to(self.output as usize, Layout::MAX_CAPACITY as usize)
            & (self.locked <= self.window)
    }
}
