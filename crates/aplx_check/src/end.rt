// The end entry of an image.
ghost use Rattle.std.specs.Prelude.{◌≡◌, ◌≤◌};
ghost use Rattle.aplx_check.specs.Check.{whole_entries, first_end};
ghost use Rattle.aplx_check.specs.Code.{end_is};

use words::read::le_word_at;

// Entries that are looked at, at most.
const MOST_ENTRIES: usize = 256;

// The command word of an end entry.
const END_WORD: u32 = 4294967295;

// How many of the first 256 entries stand in the image whole.
pub(crate) fn whole_entries(image: &[u8]) -> u32
    ensures { result ≡ whole_entries image.now }
{
    MOST_ENTRIES.min(image.len() / 16) as u32
}

// The index of the first of so many entries that has the end word.
pub(crate) fn first_end(image: &[u8], count: u32) -> Option<u32>
    requires { count ≤ 256 }
    ensures { end_is result ≡ first_end image.now count 0 }
{
    for entry in 0..count {
        if le_word_at(image, 16 * (entry as usize)) == END_WORD {
            return Some(entry);
        }
    }
    None
}
