// The characters of a line: what a character parts, decimal numbers, hex digits.
ghost use Rattle.std.specs.Prelude.{◌<◌, IfSome};

use std::str;
use std::str::FromStr;

// What stands before the first such character, and what stands behind it.
pub(crate) fn split_once(text: &[u8], character: u8) -> Option<(&[u8], &[u8])> {
    let end = text.iter().position(|byte| *byte == character)?;
    Some((&text[..end], &text[end + 1..]))
}

// A number in decimal digits alone.
pub(crate) fn decimal<N: FromStr>(text: &[u8]) -> Option<N>
where
    N::Err: Drop,
{
    if !text.iter().all(|byte| byte.is_ascii_digit()) {
        return None;
    }
    str::from_utf8(text).ok()?.parse().ok()
}

// The value of a hex digit.
pub(crate) fn hex_digit(character: u8) -> Option<u8>
    ensures { IfSome result (λ digit. digit < 16) }
{
    match character {
        b'0'..=b'9' => Some(character - b'0'),
        b'a'..=b'f' => Some(character - b'a' + 10),
        _ => None,
    }
}
