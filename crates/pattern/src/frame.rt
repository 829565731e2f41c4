// Records: a two-byte mark, a two-byte length, a body.
ghost use Rattle.std.specs.Prelude.{◌≡◌, ◌+◌, ◌≤◌, ◌<◌, length};
ghost use Rattle.slices.specs.Slices.{copied};
ghost use Rattle.pattern.specs.Frame.{frame_length, mark_number, record_of, body_length, body_of, record_length, behind_record, has_frame, has_frame_of_length};

use slices::{byte, copy, part, put_u16, rest, u16_at};

// A record's mark: `P`, and this byte.
#[derive(Clone, Copy, Debug, PartialEq, Eq)]
pub(crate) enum Mark {
    Version = b'V' as isize,
    Parameters = b'B' as isize,
    Code = b'C' as isize,
    Input = b'I' as isize,
    End = b'E' as isize,
}

impl Mark {
    fn byte(self) -> u8
        ensures { result ≡ mark_number self }
    {
        self as u8
    }
}

// What `PV` holds behind the form.
pub(crate) const BOARD: u8 = 1;

// How many bytes the body of `PV` has.
pub(crate) const VERSION_LENGTH: usize = 2;

// How many bytes stand in front of a body.
pub(crate) const FRAME_LENGTH: usize = 4;

// The length that the record at the front of `s` gives its body.
#[tactic(auto, unfolding(crate::specs::Frame::body_length))]
pub(crate) fn body_length(s: &[u8]) -> u16
    ensures { result ≡ body_length s.now }
{
    u16_at(s, 2)
}

// The body of the record at the front of `s`.
#[tactic(auto, unfolding(crate::specs::Frame::body_of))]
pub(crate) fn body(s: &[u8]) -> &[u8]
    ensures { result.now ≡ body_of s.now }
{
    part(s, FRAME_LENGTH, body_length(s) as usize)
}

// The whole length of the record at the front of `s`.
pub(crate) fn record_length(s: &[u8]) -> usize
    ensures value { result ≡ record_length s.now }
    ensures upper_bound { result < 65536 + frame_length }
{
    body_length(s) as usize + FRAME_LENGTH
}

// What follows the record at the front of `s`. Always inlined: the reader has the record's length at hand.
#[inline(always)]
#[tactic(auto, unfolding(crate::specs::Frame::behind_record))]
pub(crate) fn behind_record(s: &[u8]) -> &[u8]
    ensures { result.now ≡ behind_record s.now }
{
    rest(s, record_length(s))
}

// Whether the record at the front of `s` has that mark, and its body is inside `s`.
#[inline(always)]
#[tactic(auto, unfolding(crate::specs::Frame::has_frame, common::specs::Tests::and_all))]
pub(crate) fn has_frame(s: &[u8], mark: Mark) -> bool
    ensures { result ≡ has_frame (mark_number mark) s.now }
{
    byte(s, 0) == b'P' && byte(s, 1) == mark.byte() && record_length(s) <= s.len()
}

// The same, with a body of `n` bytes.
#[inline(always)]
pub(crate) fn has_frame_of_length(s: &[u8], mark: Mark, n: usize) -> bool
    ensures { result ≡ has_frame_of_length (mark_number mark) n s.now }
{
    has_frame(s, mark) && body_length(s) as usize == n
}

// Writes records into a buffer, one behind the other: the next one starts at `at`.
#[derive(Drop)]
pub(crate) struct RecordWriter<'a> {
    pub(crate) buffer: &'a mut [u8],
    pub(crate) at: usize,
}

impl RecordWriter<'_> {
    // Writes the record of that mark with `body`.
    pub(crate) fn put(&mut self, mark: Mark, body: &[u8])
        requires body_len_bound { length body.now < 65536 }
        requires body_in_bounds { self.old.at + frame_length + length body.now ≤ length self.old.buffer.now }
        ensures same_buffer { self.new.buffer.ghost_name ≡ self.old.buffer.ghost_name }
        ensures buffer_len { length self.new.buffer.now ≡ length self.old.buffer.now }
        ensures at_after { self.new.at ≡ self.old.at + frame_length + length body.now }
        ensures buffer_after { self.new.buffer.now ≡ copied self.old.buffer.now self.old.at (record_of (mark_number mark) body.now) }
    {
        copy(self.buffer, self.at, &[b'P', mark.byte()]);
        put_u16(self.buffer, self.at + 2, body.len() as u16);
        copy(self.buffer, self.at + FRAME_LENGTH, body);
        self.at += FRAME_LENGTH + body.len();
    }
}
