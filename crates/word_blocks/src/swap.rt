// Words between Big and Little Endian.
ghost use Rattle.std.specs.Prelude.{◌≡◌, ◌%◌, length};
ghost use Rattle.word_blocks.specs.Swap.{swap_words};
ghost use Rattle.words.specs.Store.{store_if_fits};

// Whole words, the bytes of each the other way round.
fn swap_whole(source: &[u8], part: &mut [u8])
    requires { (length part.old ≡ length source.now) × (length source.now % 4 ≡ 0) }
    ensures { part.new ≡ swap_words source.now }
{
    for i in 0..source.len() / 4 {
        let at = i * 4;
        let word = words::read::be_word(&source[at..at + 4]);
        part[at..at + 4].copy_from_slice(&word.to_le_bytes());
    }
}

// The bytes of another slice, those of each word the other way round; bytes behind the last whole word stay as they are.
pub fn put(s: &mut [u8], at: usize, source: &[u8])
    ensures { s.new ≡ store_if_fits s.old at (swap_words source.now) }
{
    if words::range::fits(at, source.len(), s.len()) {
        let whole = source.len() / 4 * 4;
        let middle = at + whole;
        swap_whole(&source[0..whole], &mut s[at..middle]);
        words::put::bytes(s, middle, &source[whole..]);
    }
}
