// Bytes and parts of a slice, copies and fills.
ghost use Rattle.std.specs.Prelude.{◌≡◌, get_or, take, drop, [], ◌∷◌};
ghost use Rattle.slices.specs.Slices.{part_of, copied, filled_with};

// The byte at `at`, 0 from the end on.
pub fn byte(s: &[u8], at: usize) -> u8
    ensures { result ≡ get_or s.now at 0 }
{
    s.get(at).copied().unwrap_or(0)
}

// The part from `at` on, empty from the end on.
pub fn rest(s: &[u8], at: usize) -> &[u8]
    ensures { result.now ≡ drop at s.now }
{
    s.get(at..).unwrap_or(&s[..0])
}

// The first `n` bytes, or all of them where there are fewer.
pub fn front(s: &[u8], n: usize) -> &[u8]
    ensures { result.now ≡ take n s.now }
{
    s.get(..n).unwrap_or(s)
}

// The `n` bytes from `at` on, or as many as there are.
pub fn part(s: &[u8], at: usize, n: usize) -> &[u8]
    ensures { result.now ≡ part_of s.now at n }
{
    front(rest(s, at), n)
}

// Copies `source` into `target` from `at` on: whole, or not at all where it would pass the end.
#[tactic(auto, using(crate::specs::SliceLaws::copied_left, crate::proofs::StoreLaws::stored_none, crate::proofs::StoreLaws::stored_all))]
pub fn copy(target: &mut [u8], at: usize, source: &[u8])
    ensures { target.new ≡ copied target.old at source.now }
{
    if target.len() < at {
        return;
    }
    if target.len() - at < source.len() {
        return;
    }
    // No `copy_from_slice`, which compiles to a call of `memmove`: C would have to bring one more function to the archive.
    for (i, byte) in source.iter().enumerate() {
        target[at + i] = *byte;
    }
}

// Puts `value` into the `n` bytes from `at` on: all of them, or none where they would pass the end.
#[tactic(auto, using(crate::specs::SliceLaws::copied_left, crate::proofs::StoreLaws::part_written))]
pub fn fill(target: &mut [u8], at: usize, n: usize, value: u8)
    ensures { target.new ≡ filled_with target.old at n value }
{
    if target.len() < at {
        return;
    }
    if target.len() - at < n {
        return;
    }
    target[at..at + n].fill(value);
}

// Puts a byte at `at`, and nothing from the end on.
pub fn put_byte(target: &mut [u8], at: usize, value: u8)
    ensures { target.new ≡ copied target.old at (value ∷ []) }
{
    let bytes = [value];
    copy(target, at, &bytes);
}
