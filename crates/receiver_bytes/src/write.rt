// What a message that is done changes of a receiver's bytes.
#![tactic(auto, unfolding(crate::specs::Receiver::written))]

ghost use Rattle.std.specs.Prelude.{◌≡◌, ◌<◌};
ghost use Rattle.flood_fill.specs.declared.message.Message.TheVariants as messages;
ghost use Rattle.receiver_bytes.specs.Receiver.{with_word, written};

use crate::layout::{COUNT, DONE, MARKS, OPEN_BLOCK, OPEN_SIZE, PLACES, RECEIVER, SIZE, WORDS};
use words::put::{le_half, le_word};

// All bytes anew: nothing is done, open or marked.
pub(crate) fn begin(bytes: &mut [u8; RECEIVER], last_block: u16, size: u16)
    requires { last_block < 256 }
    ensures { bytes.new ≡ written bytes.old (messages.Start last_block size) }
{
    *bytes = [0; RECEIVER];
    le_half(bytes, COUNT, last_block + 1);
    le_half(bytes, SIZE, size);
}

// Opens a block, with no word marked.
pub(crate) fn open(bytes: &mut [u8; RECEIVER], block: u16, size: u16)
    ensures { bytes.new ≡ written bytes.old (messages.BlockStart block size) }
{
    le_half(bytes, OPEN_BLOCK, block);
    le_half(bytes, OPEN_SIZE, size);
    bytes[MARKS..WORDS].fill(0);
}

// Keeps and marks a word.
pub(crate) fn keep(bytes: &mut [u8; RECEIVER], word_id: usize, word: u32)
    requires { word_id < 256 }
    ensures { bytes.new ≡ with_word bytes.old word_id word }
{
    bytes[MARKS + word_id] = 1;
    le_word(bytes, WORDS + 4 * word_id, word);
}

// A block is done, and none is open.
pub(crate) fn close(bytes: &mut [u8; RECEIVER], block: usize)
    ensures { bytes.new ≡ written bytes.old (messages.BlockEnd block) }
{
    le_word(bytes, OPEN_BLOCK, 0);
    if block < PLACES {
        bytes[DONE + block] = 1;
    }
}
