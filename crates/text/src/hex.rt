// Numbers in lower-case hex digits.
ghost use Rattle.std.specs.Prelude.{◌≡◌};
ghost use Rattle.words.specs.Store.{store_if_fits};
ghost use Rattle.text.specs.Hex.{hex};

// The last digits of a number, so many, at a place. Where they do not fit, the output is left as it was.
pub fn put(output: &mut [u8], at: usize, count: usize, n: u64)
    ensures { output.new ≡ store_if_fits output.old at (hex count n) }
{
    crate::digits::put(output, at, 16, count, n);
}
