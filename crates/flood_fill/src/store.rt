// Words into the image, Little Endian.
ghost use Rattle.std.specs.Prelude.{◌≡◌, ◌+◌, ◌*◌, ◌≤◌, length};
ghost use Rattle.words.specs.Store.{store, store_if_fits};
ghost use Rattle.flood_fill.specs.Receive.{word_bytes};

// At a place where they fit.
fn store_words(image: &mut [u8], at: usize, words: &[u32])
    requires { at + 4 * length words.now ≤ length image.old }
    ensures { image.new ≡ store image.old at (word_bytes words.now) }
{
    for (i, word) in words.iter().enumerate() {
        words::put::le_word(image, at + 4 * i, *word);
    }
}

// The same where they fit; else the image is left as it was.
#[tactic(auto, unfolding(words::specs::Store::store_if_fits), using(crate::proofs::ReceiveLaws::length_word_bytes))]
pub(crate) fn put_words(image: &mut [u8], at: usize, words: &[u32])
    requires { length words.now ≤ 256 }
    ensures { image.new ≡ store_if_fits image.old at (word_bytes words.now) }
{
    if words::range::fits(at, 4 * words.len(), image.len()) {
        store_words(image, at, words);
    }
}
