// A word repeated over a slice, its bytes lowest first, and cut at the slice's end.
ghost use Rattle.std.specs.Prelude.{◌≡◌, ◌/◌, length};
ghost use Rattle.words.specs.Bytes.{little_endian};
ghost use Rattle.word_blocks.specs.Repeat.{repeated, filling};
ghost use Rattle.words.specs.Store.{store};

// The whole words; bytes behind the last one stay as they are.
fn whole_words(part: &mut [u8], word: u32)
    ensures { part.new ≡ store part.old 0 (repeated (length part.old / 4) word) }
{
    let bytes = word.to_le_bytes();
    for i in 0..part.len() / 4 {
        let at = i * 4;
        part[at..at + 4].copy_from_slice(&bytes);
    }
}

// The lowest bytes of a word, as many as the slice has.
fn low_bytes(part: &mut [u8], word: u32)
    ensures { part.new ≡ little_endian (length part.old) word }
{
    let mut rest = word;
    for byte in part.iter_mut() {
        *byte = (rest % 256) as u8;
        rest /= 256;
    }
}

// The word over the whole slice.
pub fn fill(part: &mut [u8], word: u32)
    ensures { part.new ≡ filling (length part.old) word }
{
    let whole = part.len() / 4 * 4;
    whole_words(part, word);
    low_bytes(&mut part[whole..], word);
}
