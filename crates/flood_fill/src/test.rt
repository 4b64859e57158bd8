// The tests of a message. A message that fails one is refused for its cause, and changes nothing.
ghost use Rattle.std.specs.Prelude.{◌≡◌, suc, ◌*◌};
ghost use Rattle.flood_fill.specs.Limits.{within_limits, right_size};
ghost use Rattle.flood_fill.specs.Refusals.{is_open, is_wanted, declared_words, test_start, test_block_start, test_block_end, tested};

use crate::header::{Block, Header};
use crate::message::Message;
use outcome::refusal::Cause;

// The most blocks, the most words of a block, and the most words of an image.
const MOST_BLOCKS: u32 = 256;

const MOST_SIZE: u32 = 256;

const MOST_WORDS: u32 = 8192;

fn within_limits(last_block: u32, size: u32) -> bool
    ensures { result ≡ within_limits (suc last_block) size }
{
    last_block < MOST_BLOCKS
        && 1 <= size
        && size <= MOST_SIZE
        && (last_block + 1) * size <= MOST_WORDS
}

// Whether block `block` of `count` blocks, whose full size is `full`, may have `size` words.
fn is_right_size(count: u16, full: u16, block: u32, size: u32) -> bool
    ensures { result ≡ right_size count full block size }
{
    let is_last = block as u64 + 1 == count as u64;
    1 <= size
        && if is_last {
            size <= full as u32
        } else {
            size == full as u32
        }
}

// Whether block `block` is the open one.
pub fn is_open(opened: Option<Block>, block: u32) -> bool
    ensures { result ≡ is_open opened block }
{
    opened.is_some_and(|open| open.block as u32 == block)
}

// Whether a word is one of the open block's.
pub fn is_wanted(opened: Option<Block>, block: u32, word_id: u32) -> bool
    ensures { result ≡ is_wanted opened block word_id }
{
    opened.is_some_and(|open| open.block as u32 == block && word_id < open.size as u32)
}

// The words that the last Start declared.
fn words_of(header: Header) -> usize
    ensures { result ≡ header.count * header.size }
{
    header.count as usize * (header.size as usize)
}

// The words that a message's image has to hold: a Start's own, or those of the last Start.
fn declared_words(header: Header, message: Message) -> usize
    ensures { result ≡ declared_words header message }
{
    match message {
        Message::Start { last_block, size } => (last_block as usize + 1) * (size as usize),
        Message::BlockStart { .. } | Message::BlockData { .. } | Message::BlockEnd { .. } => {
            words_of(header)
        }
    }
}

#[tactic(auto, unfolding(crate::specs::Refusals::test_start))]
fn test_start(last_block: u32, size: u32) -> Result<(), Cause>
    ensures { result ≡ test_start last_block size }
{
    if within_limits(last_block, size) {
        Ok(())
    } else {
        Err(Cause::OutsideLimits)
    }
}

#[tactic(auto, unfolding(crate::specs::Refusals::test_block_start))]
fn test_block_start(header: Header, block: u32, size: u32) -> Result<(), Cause>
    ensures { result ≡ test_block_start header block size }
{
    if header.count == 0 {
        Err(Cause::NoStart)
    } else if header.count as u32 <= block {
        Err(Cause::NoSuchBlock)
    } else if is_right_size(header.count, header.size, block, size) {
        Ok(())
    } else {
        Err(Cause::WrongSize)
    }
}

#[tactic(auto, unfolding(crate::specs::Refusals::test_block_end))]
fn test_block_end(header: Header, block: u32) -> Result<(), Cause>
    ensures { result ≡ test_block_end header block }
{
    if is_open(header.opened, block) {
        Ok(())
    } else {
        Err(Cause::NotOpen)
    }
}

// All tests of a message, with an image of so many bytes.
#[tactic(auto, unfolding(crate::specs::Refusals::tested))]
pub fn test(header: Header, message: Message, image_length: usize) -> Result<(), Cause>
    ensures { result ≡ tested header message image_length }
{
    if image_length / 4 < declared_words(header, message) {
        return Err(Cause::ImageTooShort);
    }
    match message {
        Message::Start { last_block, size } => test_start(last_block, size),
        Message::BlockStart { block, size } => test_block_start(header, block, size),
        Message::BlockData { .. } => Ok(()),
        Message::BlockEnd { block } => test_block_end(header, block),
    }
}
