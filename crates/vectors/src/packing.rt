// Unpacks a file, piece by piece; make_data.py gives the layout of a piece.
use slices::{byte, copy, fill, front, rest, u16_at};

// Added to the count in the head of a piece that repeats one byte.
const REPEATED_FLAG: usize = 32768;

// Puts the file of these pieces at the front of `file`; answers its length. The slice has room for every file of the vectors; where
// it is full, the pieces that are left are left out.
pub(crate) fn unpack(packed: &[u8], file: &mut [u8]) -> usize {
    let mut pieces = packed;
    let mut size = 0;
    while !pieces.is_empty() {
        if file.len() <= size {
            return size;
        }
        let head = u16_at(pieces, 0) as usize;
        let bytes = rest(pieces, 2);
        let count = head % REPEATED_FLAG;
        if head < REPEATED_FLAG {
            copy(file, size, front(bytes, count));
            pieces = rest(bytes, count);
        } else {
            fill(file, size, count, byte(bytes, 0));
            pieces = rest(bytes, 1);
        }
        size += count;
    }
    size
}
