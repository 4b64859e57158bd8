// The four messages, each with the image that is received. A refused message changes nothing; its refusal names no place.
#![tactic(auto, unfolding(crate::specs::Receiver::receive_bytes, crate::specs::Receiver::receiver_in, crate::specs::Receiver::written, flood_fill::specs::Receive::receive, flood_fill::specs::Receive::block_started, flood_fill::specs::Receive::data_came, flood_fill::specs::Refusals::tested, flood_fill::specs::Refusals::test_start, flood_fill::specs::Refusals::test_block_start))]

ghost use Rattle.std.specs.Prelude.{◌≡◌};
ghost use Rattle.flood_fill.specs.declared.message.Message.TheVariants as messages;
ghost use Rattle.flood_fill.specs.Answer.{answer_is};
ghost use Rattle.receiver_bytes.specs.Receiver.{receive_bytes};

use crate::layout::RECEIVER;
use crate::read::{header_of, is_done, is_marked, lowest_missing, missing_words, put_words};
use crate::write::{begin, close, keep, open};
use flood_fill::message::Message;
use flood_fill::receiver::{Progress, open_words};
use flood_fill::test::{is_wanted, test};
use outcome::refusal::Refusal;

// Begins afresh. The image is not written.
pub fn start(
    bytes: &mut [u8; RECEIVER],
    image: &[u8],
    last_block: u32,
    size: u32,
) -> Result<Progress, Refusal>
    ensures result_value { answer_is result ≡ (receive_bytes bytes.old image.now (messages.Start last_block size)).answer }
    ensures bytes_after { bytes.new ≡ (receive_bytes bytes.old image.now (messages.Start last_block size)).bytes }
{
    let header = header_of(bytes);
    test(header, Message::Start { last_block, size }, image.len()).map_err(|cause| cause.at(0))?;
    begin(bytes, last_block as u16, size as u16);
    Ok(Progress::Accepted)
}

// Opens a block that is not done.
pub fn block_start(
    bytes: &mut [u8; RECEIVER],
    image: &[u8],
    block: u32,
    size: u32,
) -> Result<Progress, Refusal>
    ensures result_value { answer_is result ≡ (receive_bytes bytes.old image.now (messages.BlockStart block size)).answer }
    ensures bytes_after { bytes.new ≡ (receive_bytes bytes.old image.now (messages.BlockStart block size)).bytes }
{
    let header = header_of(bytes);
    test(header, Message::BlockStart { block, size }, image.len()).map_err(|cause| cause.at(0))?;
    if is_done(bytes, block) {
        return Ok(Progress::Ignored);
    }
    open(bytes, block as u16, size as u16);
    Ok(Progress::Accepted)
}

// Keeps a word of the open block that is not marked.
pub fn block_data(
    bytes: &mut [u8; RECEIVER],
    image: &[u8],
    block: u32,
    word_id: u32,
    word: u32,
) -> Result<Progress, Refusal>
    ensures result_value { answer_is result ≡ (receive_bytes bytes.old image.now (messages.BlockData block word_id word)).answer }
    ensures bytes_after { bytes.new ≡ (receive_bytes bytes.old image.now (messages.BlockData block word_id word)).bytes }
{
    let header = header_of(bytes);
    let message = Message::BlockData {
        block,
        word_id,
        word,
    };
    test(header, message, image.len()).map_err(|cause| cause.at(0))?;
    if !is_wanted(header.opened, block, word_id) || is_marked(bytes, word_id) {
        return Ok(Progress::Ignored);
    }
    keep(bytes, word_id as usize, word);
    Ok(Progress::Accepted)
}

// Completes the open block, if every word of it came: its words go into the image.
pub fn block_end(
    bytes: &mut [u8; RECEIVER],
    image: &mut [u8],
    block: u32,
) -> Result<Progress, Refusal>
    ensures result_value { answer_is result ≡ (receive_bytes bytes.old image.old (messages.BlockEnd block)).answer }
    ensures bytes_after { bytes.new ≡ (receive_bytes bytes.old image.old (messages.BlockEnd block)).bytes }
    ensures image_after { image.new ≡ (receive_bytes bytes.old image.old (messages.BlockEnd block)).image }
{
    let header = header_of(bytes);
    test(header, Message::BlockEnd { block }, image.len()).map_err(|cause| cause.at(0))?;
    let used = open_words(header.opened);
    let number = missing_words(bytes, used);
    if number > 0 {
        let lowest = lowest_missing(bytes, used);
        return Ok(Progress::Missing { number, lowest });
    }
    let at = 4 * (block as usize * (header.size as usize));
    put_words(image, at, bytes, used);
    close(bytes, block as usize);
    Ok(Progress::Done)
}
