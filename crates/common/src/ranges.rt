// A range of numbers.
ghost use Rattle.std.specs.Prelude.{◌≡◌};
ghost use Rattle.common.specs.Ranges.{is_one_to};

// Whether `n` is 1 to `most`.
pub fn is_one_to(n: usize, most: usize) -> bool
    ensures { result ≡ is_one_to n most }
{
    (1 <= n) & (n <= most)
}
