// Numbers out of the bytes of a slice. Bytes past its end count as zero; a word that has none there is read plainly after one test.
ghost use Rattle.std.specs.Prelude.{◌≡◌, ◌+◌, ◌<◌, ◌≤◌, length};
ghost use Rattle.words.specs.Bytes.{first_bytes, little_endian_at, big_endian_at};

// The first N bytes, of which some are past the end.
#[cold]
#[inline(never)]
fn padded<const N: usize>(s: &[u8]) -> [u8; N]
    requires { length s.now < N }
    ensures { result ≡ first_bytes N s.now }
{
    let mut bytes = [0; N];
    bytes[..s.len()].copy_from_slice(s);
    bytes
}

// The first N bytes.
fn first<const N: usize>(s: &[u8]) -> [u8; N]
    ensures { result ≡ first_bytes N s.now }
{
    match s.first_chunk() {
        Some(bytes) => *bytes,
        None => padded(s),
    }
}

// The Little Endian number in four bytes that stand in the slice.
pub(crate) fn whole_le_word(s: &[u8], at: usize) -> u32
    requires { at + 4 ≤ length s.now }
    ensures { result ≡ little_endian_at 4 s.now at }
{
    u32::from_le_bytes([s[at], s[at + 1], s[at + 2], s[at + 3]])
}

// The Little Endian number in the first two bytes.
pub fn le_half(s: &[u8]) -> u16
    ensures { result ≡ little_endian_at 2 s.now 0 }
{
    u16::from_le_bytes(first(s))
}

// The Little Endian number in the four bytes at an offset.
pub fn le_word_at(s: &[u8], at: usize) -> u32
    ensures { result ≡ little_endian_at 4 s.now at }
{
    if at <= s.len() {
        return u32::from_le_bytes(first(&s[at..]));
    }
    0
}

// The Big Endian number in the first two bytes.
pub fn be_half(s: &[u8]) -> u16
    ensures { result ≡ big_endian_at 2 s.now 0 }
{
    u16::from_be_bytes(first(s))
}

// The Big Endian number in the first four bytes.
pub fn be_word(s: &[u8]) -> u32
    ensures { result ≡ big_endian_at 4 s.now 0 }
{
    u32::from_be_bytes(first(s))
}
