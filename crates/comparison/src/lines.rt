// The lines of stretches.
ghost use Rattle.std.specs.Prelude.{◌≡◌, [], ◌∷◌, ◌++◌, ◌+◌, ◌*◌, ◌≤◌, length};
ghost use Rattle.words.specs.Store.{store, store_if_fits};
ghost use Rattle.text.specs.Hex.{hex};
ghost use Rattle.compare.specs.Compare.{most_stretches};
ghost use Rattle.comparison.specs.Lines.{byte_text, line, lines};
ghost use Rattle.comparison.specs.Lines.Stretches.{stretch_of, stretches_in, stretch_lines};

use crate::comparison::LONGEST_TEXT;
use compare::compare::{NOT_STORED, STRETCH_SIZE};
use words::four::Four;

// The bytes of the line of a stretch.
pub(crate) const LINE_SIZE: usize = 24;

// An address, and a space behind it.
fn put_address(text: &mut [u8], at: usize, address: u32)
    requires { at + 9 ≤ length text.old }
    ensures { text.new ≡ store text.old at (hex 8 address ++ 32 ∷ []) }
{
    text::hex::put(text, at, 8, address as u64);
    text[at + 8] = b' ';
}

// A byte in two digits, or `--`. Where they do not fit, the text is left as it was.
fn put_digits(text: &mut [u8], at: usize, byte: u32)
    ensures { text.new ≡ store_if_fits text.old at (byte_text byte) }
{
    if byte == NOT_STORED {
        words::put::bytes(text, at, b"--");
    } else {
        text::hex::put(text, at, 2, byte as u64);
    }
}

// These, and a separator behind them.
fn put_byte(text: &mut [u8], at: usize, byte: u32, separator: u8)
    requires { at + 3 ≤ length text.old }
    ensures { text.new ≡ store text.old at (byte_text byte ++ separator ∷ []) }
{
    put_digits(text, at, byte);
    text[at + 2] = separator;
}

// The line of a stretch.
fn put_line(text: &mut [u8], at: usize, stretch: Four)
    requires { at + 24 ≤ length text.old }
    ensures { text.new ≡ store text.old at (line (stretch_of stretch)) }
{
    put_address(text, at, stretch.first);
    put_address(text, at + 9, stretch.second);
    put_byte(text, at + 18, stretch.third, b' ');
    put_byte(text, at + 21, stretch.fourth, b'\n');
}

// The lines of so many stretches, at the text's front.
fn put_stretches(text: &mut [u8], stretches: &[u8], count: usize)
    requires { (count ≤ most_stretches) × (24 * count ≤ length text.old) }
    ensures { text.new ≡ store text.old 0 (stretch_lines (stretches_in count stretches.now)) }
{
    for i in 0..count {
        put_line(
            text,
            i * LINE_SIZE,
            words::four::read(stretches, i * STRETCH_SIZE),
        );
    }
}

// These, and the line of the runs behind them. Answers the length of the text.
pub(crate) fn put_lines(
    text: &mut [u8; LONGEST_TEXT],
    stretches: &[u8],
    count: usize,
    same: bool,
) -> usize
    requires { count ≤ most_stretches }
    ensures value { result ≡ length (lines (stretches_in count stretches.now) same) }
    ensures text_after { text.new ≡ store text.old 0 (lines (stretches_in count stretches.now) same) }
    ensures upper_bound { result ≤ length text.new }
{
    put_stretches(text, stretches, count);
    let end = count * LINE_SIZE;
    if same {
        words::put::bytes(text, end, b"same run\n");
        return end + 9;
    }
    words::put::bytes(text, end, b"other run\n");
    end + 10
}
