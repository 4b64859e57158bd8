// Blocks of addresses that differ alike.
ghost use Rattle.std.specs.Prelude.{◌≡◌, ◌&&◌, ◌≤◌, ◌<◌, eqb};
ghost use Rattle.word_blocks.specs.Repeat.{filling};
ghost use Rattle.compare.specs.Code.{image_of, Alike};
ghost use Rattle.compare.specs.Code.Segment.{given_by, stored, Reaches};
ghost use Rattle.compare.specs.Code.Block.{Sides};

use crate::pairs::{PAIRS, alike};
use crate::segment::{Source, byte_at, fill_byte};
use crate::sides::Sources;

// The address behind a block, and the last bytes at its first address, or what stands for one that is not stored.
#[derive(Clone, Copy, Debug, PartialEq, Eq)]
pub(crate) struct Block {
    pub end: u64,
    pub old: u32,
    pub new: u32,
}

// Whether both plans store.
fn both_store(sources: Sources) -> bool
    ensures { result ≡ (stored sources.old && stored sources.new) }
{
    !matches!(sources.old, Source::Nothing) && !matches!(sources.new, Source::Nothing)
}

// The bytes of a word in a row, as many as are compared at once from any of the first four on.
const ROW: usize = PAIRS + 4;

fn row_of(word: u32) -> [u8; ROW]
    ensures { result ≡ filling 68 word }
{
    let mut row = [0u8; ROW];
    word_blocks::fill::fill(&mut row, word);
    row
}

// The first address from `at` on, and below the sources' end, at which the two last bytes are equal, or are not, other than asked; or that
// end. Of a fill 68 of its bytes are laid out, 64 from any of the word's bytes on; of two fills four pairs tell all.
fn until(old: &[u8], new: &[u8], sources: Sources, at: u64, same: bool) -> u64
    requires { Reaches old.now sources.old at sources.end × Reaches new.now sources.new at sources.end × (at ≤ sources.end) }
    ensures lower_bound { (at ≤ result) × (result ≤ sources.end) }
    ensures alike { Alike (given_by old.now sources.old) (given_by new.now sources.new) at result same }
{
    let size = (sources.end - at) as usize;
    match (sources.old, sources.new) {
        (
            Source::Put { address, from, .. },
            Source::Put {
                address: new_address,
                from: new_from,
                ..
            },
        ) => {
            let old_at = from + (at - address as u64) as usize;
            let new_at = new_from + (at - new_address as u64) as usize;
            at + alike(|k| old[old_at + k], |k| new[new_at + k], size, same) as u64
        }
        (
            Source::Put { address, from, .. },
            Source::Fill {
                address: new_address,
                word,
                ..
            },
        ) => {
            let old_at = from + (at - address as u64) as usize;
            let phase = ((at - new_address as u64) % 4) as usize;
            let row = row_of(word);
            at + alike(|k| old[old_at + k], |k| row[phase + k % PAIRS], size, same) as u64
        }
        (
            Source::Fill { address, word, .. },
            Source::Put {
                address: new_address,
                from,
                ..
            },
        ) => {
            let phase = ((at - address as u64) % 4) as usize;
            let new_at = from + (at - new_address as u64) as usize;
            let row = row_of(word);
            at + alike(|k| row[phase + k % PAIRS], |k| new[new_at + k], size, same) as u64
        }
        (
            Source::Fill { address, word, .. },
            Source::Fill {
                address: new_address,
                word: new_word,
                ..
            },
        ) => {
            let phase = at - address as u64;
            let new_phase = at - new_address as u64;
            let count = alike(
                |k| fill_byte(word, phase + k as u64),
                |k| fill_byte(new_word, new_phase + k as u64),
                size.min(4),
                same,
            );
            if count < 4 {
                at + count as u64
            } else {
                sources.end
            }
        }
        _ => at,
    }
}

// The block at an address. Where only one plan stores, or none, all that is left differs alike: a byte is never what stands for none.
pub(crate) fn block_at(old: &[u8], new: &[u8], sources: Sources, at: u64) -> Block
    requires { Sides old.now new.now at sources }
    ensures at_lt_end { (at < result.end) × (result.end ≤ sources.end) }
    ensures result_value { (result.old ≡ image_of old.now at) × (result.new ≡ image_of new.now at) }
    ensures alike { Alike (image_of old.now) (image_of new.now) at result.end (eqb result.old result.new) }
{
    let old_byte = byte_at(old, sources.old, at);
    let new_byte = byte_at(new, sources.new, at);
    if both_store(sources) {
        return Block {
            end: until(old, new, sources, at + 1, old_byte == new_byte),
            old: old_byte,
            new: new_byte,
        };
    }
    Block {
        end: sources.end,
        old: old_byte,
        new: new_byte,
    }
}
