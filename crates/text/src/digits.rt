// The digits of a number in a base up to 16.
ghost use Rattle.std.specs.Prelude.{◌≡◌, ◌≤◌, ◌<◌, length};
ghost use Rattle.words.specs.Store.{store_if_fits};
ghost use Rattle.text.specs.Digits.{digits};
ghost use Rattle.text.specs.Digits as definition;

fn digit(d: u64) -> u8
    requires { d < 16 }
    ensures { result ≡ definition.digit d }
{
    if d < 10 {
        (48 + d) as u8
    } else {
        (87 + d) as u8
    }
}

// As many digits as the part has places.
fn put_all(part: &mut [u8], base: u64, n: u64)
    requires { (0 < base) × (base ≤ 16) }
    ensures { part.new ≡ digits base (length part.old) n }
{
    let mut rest = n;
    for i in (0..part.len()).rev() {
        part[i] = digit(rest % base);
        rest /= base;
    }
}

// The last digits, so many, at a place. Where they do not fit, the output is left as it was.
pub(crate) fn put(output: &mut [u8], at: usize, base: u64, count: usize, n: u64)
    requires { (0 < base) × (base ≤ 16) }
    ensures { output.new ≡ store_if_fits output.old at (digits base count n) }
{
    if words::range::fits(at, count, output.len()) {
        let end = at + count;
        put_all(&mut output[at..end], base, n);
    }
}
