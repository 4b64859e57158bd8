// Four Little Endian words, one after the other.
ghost use Rattle.std.specs.Prelude.{◌≡◌, ◌+◌, ◌≤◌, length};
ghost use Rattle.words.specs.Four.{four_at, four_bytes};
ghost use Rattle.words.specs.Store.{store_if_fits};

use crate::read::whole_le_word;

#[derive(Debug, Clone, Copy, PartialEq, Eq)]
pub struct Four {
    pub first: u32,
    pub second: u32,
    pub third: u32,
    pub fourth: u32,
}

// All four stand in the slice.
fn whole(s: &[u8], at: usize) -> Four
    requires { at + 16 ≤ length s.now }
    ensures { result ≡ four_at s.now at }
{
    Four {
        first: whole_le_word(s, at),
        second: whole_le_word(s, at + 4),
        third: whole_le_word(s, at + 8),
        fourth: whole_le_word(s, at + 12),
    }
}

// At most sixteen bytes; those that are missing count as zero.
fn short(s: &[u8]) -> Four
    requires { length s.now ≤ 16 }
    ensures { result ≡ four_at s.now 0 }
{
    let mut bytes = [0u8; 16];
    crate::put::bytes(&mut bytes, 0, s);
    whole(&bytes, 0)
}

// The four words at an offset. Bytes past the slice's end count as zero.
pub fn read(s: &[u8], at: usize) -> Four
    ensures { result ≡ four_at s.now at }
{
    if crate::range::fits(at, 16, s.len()) {
        return whole(s, at);
    }
    if at <= s.len() {
        return short(&s[at..]);
    }
    Four {
        first: 0,
        second: 0,
        third: 0,
        fourth: 0,
    }
}

// Four words at an offset. Where they do not fit, the slice is left as it was.
pub fn put(s: &mut [u8], at: usize, first: u32, second: u32, third: u32, fourth: u32)
    ensures { s.new ≡ store_if_fits s.old at (four_bytes first second third fourth) }
{
    if crate::range::fits(at, 16, s.len()) {
        crate::put::le_word(s, at, first);
        crate::put::le_word(s, at + 4, second);
        crate::put::le_word(s, at + 8, third);
        crate::put::le_word(s, at + 12, fourth);
    }
}
