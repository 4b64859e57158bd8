// What the bytes of a receiver say.
#![tactic(auto, unfolding(crate::specs::Receiver::receiver_in), using(crate::proofs::ReceiverFlags::flags_map))]

ghost use Rattle.std.specs.Prelude.{◌≡◌, ◌≤◌, take};
ghost use Rattle.words.specs.Store.{store_if_fits};
ghost use Rattle.flood_fill.specs.Receive.{is_done, is_marked, missing_in, lowest_in, word_bytes};
ghost use Rattle.receiver_bytes.specs.Receiver.{opened_in, header_in, receiver_in};

use crate::layout::{COUNT, DONE, MARKS, OPEN_BLOCK, OPEN_SIZE, RECEIVER, SIZE, WORDS};
use flood_fill::flags::{is_set, lowest, missing};
use flood_fill::header::{Block, Header};
use words::read::le_half;

fn opened(block: u16, size: u16) -> Option<Block>
    ensures { result ≡ opened_in block size }
{
    if size == 0 {
        None
    } else {
        Some(Block { block, size })
    }
}

pub(crate) fn header_of(bytes: &[u8; RECEIVER]) -> Header
    ensures { result ≡ header_in bytes.now }
{
    Header {
        count: le_half(&bytes[COUNT..SIZE]),
        size: le_half(&bytes[SIZE..OPEN_BLOCK]),
        opened: opened(
            le_half(&bytes[OPEN_BLOCK..OPEN_SIZE]),
            le_half(&bytes[OPEN_SIZE..DONE]),
        ),
    }
}

pub(crate) fn is_done(bytes: &[u8; RECEIVER], block: u32) -> bool
    ensures { result ≡ is_done (receiver_in bytes.now) block }
{
    is_set(&bytes[DONE..MARKS], block as usize)
}

pub(crate) fn is_marked(bytes: &[u8; RECEIVER], word_id: u32) -> bool
    ensures { result ≡ is_marked (receiver_in bytes.now) word_id }
{
    is_set(&bytes[MARKS..WORDS], word_id as usize)
}

// How many of the first `used` words have not come.
pub(crate) fn missing_words(bytes: &[u8; RECEIVER], used: usize) -> u16
    requires { used ≤ 256 }
    ensures { result ≡ missing_in (take used (receiver_in bytes.now).marks) }
{
    missing(&bytes[MARKS..MARKS + used]) as u16
}

// The lowest of them.
pub(crate) fn lowest_missing(bytes: &[u8; RECEIVER], used: usize) -> u16
    requires { used ≤ 256 }
    ensures { result ≡ lowest_in (take used (receiver_in bytes.now).marks) }
{
    lowest(&bytes[MARKS..MARKS + used]) as u16
}

// The first `used` words go into the image, if they fit there.
pub(crate) fn put_words(image: &mut [u8], at: usize, bytes: &[u8; RECEIVER], used: usize)
    requires { used ≤ 256 }
    ensures { image.new ≡ store_if_fits image.old at (word_bytes (take used (receiver_in bytes.now).words)) }
{
    words::put::bytes(image, at, &bytes[WORDS..WORDS + 4 * used]);
}
