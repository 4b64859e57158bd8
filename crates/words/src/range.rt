// Ranges of numbers, each given by its first number and its length. Sums do not wrap.
ghost use Rattle.std.specs.Prelude.{◌≡◌, ◌+◌, leb};
ghost use Rattle.words.specs.Range.{meets};
ghost use Rattle.words.specs.Round.{round_up};

// Whether the n numbers from a on end at or before `end`.
pub fn fits(a: usize, n: usize, end: usize) -> bool
    ensures { result ≡ leb (a + n) end }
{
    a <= end && n <= end - a
}

// Whether the n numbers from a on and the k numbers from b on share a number.
pub fn share(a: u64, n: u64, b: u64, k: u64) -> bool
    ensures { result ≡ meets a n b k }
{
    if a <= b {
        k != 0 && b - a < n
    } else {
        n != 0 && a - b < k
    }
}

// The least multiple of 32 that is not below n.
pub fn round_up(n: u32) -> u64
    ensures { result ≡ round_up n }
{
    (n as u64 + 31) / 32 * 32
}
