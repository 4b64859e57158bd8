// Numbers in decimal digits.
ghost use Rattle.std.specs.Prelude.{◌≡◌};
ghost use Rattle.words.specs.Store.{store_if_fits};
ghost use Rattle.text.specs.Decimal.{decimal};
ghost use Rattle.text.specs.Decimal as definition;

// How many digits a number has.
pub fn width(n: u64) -> usize
    ensures { result ≡ definition.width n }
{
    match n.checked_ilog10() {
        Some(power) => power as usize + 1,
        None => 1,
    }
}

// The digits of a number, at a place. Where they do not fit, the output is left as it was.
pub fn put(output: &mut [u8], at: usize, n: u64)
    ensures { output.new ≡ store_if_fits output.old at (decimal n) }
{
    crate::digits::put(output, at, 10, width(n), n);
}
