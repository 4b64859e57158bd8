// Numbers into the bytes of a slice at a place. Where they do not fit, the slice is left as it was.
ghost use Rattle.std.specs.Prelude.{◌≡◌, length};
ghost use Rattle.words.specs.Bytes.{little_endian, big_endian};
ghost use Rattle.words.specs.Store.{store_if_fits};

// Two bytes, Little Endian.
pub fn le_half(s: &mut [u8], at: usize, n: u16)
    ensures { s.new ≡ store_if_fits s.old at (little_endian 2 n) }
{
    bytes(s, at, &n.to_le_bytes());
}

// Four bytes, Little Endian.
pub fn le_word(s: &mut [u8], at: usize, n: u32)
    ensures { s.new ≡ store_if_fits s.old at (little_endian 4 n) }
{
    bytes(s, at, &n.to_le_bytes());
}

// Two bytes, Big Endian.
pub fn be_half(s: &mut [u8], at: usize, n: u16)
    ensures { s.new ≡ store_if_fits s.old at (big_endian 2 n) }
{
    bytes(s, at, &n.to_be_bytes());
}

// Four bytes, Big Endian.
pub fn be_word(s: &mut [u8], at: usize, n: u32)
    ensures { s.new ≡ store_if_fits s.old at (big_endian 4 n) }
{
    bytes(s, at, &n.to_be_bytes());
}

// The bytes of a source of the same length. In a plain loop the compiler uses that the two slices share no byte; the library's copy does
// not say so, and calls memmove.
fn copy_all(part: &mut [u8], source: &[u8])
    requires { length part.old ≡ length source.now }
    ensures { part.new ≡ source.now }
{
    for i in 0..source.len() {
        part[i] = source[i];
    }
}

// The bytes of another slice.
pub fn bytes(s: &mut [u8], at: usize, source: &[u8])
    ensures { s.new ≡ store_if_fits s.old at source.now }
{
    if crate::range::fits(at, source.len(), s.len()) {
        let end = at + source.len();
        copy_all(&mut s[at..end], source);
    }
}
