// The flood-fill receiver: each message a call.
ghost use Rattle.std.specs.Prelude.{◌≡◌};
ghost use Rattle.flood_fill.specs.declared.message.Message.TheVariants as messages;
ghost use Rattle.outcome_numbers.specs.Numbers.{first};
ghost use Rattle.reidhintsje.specs.Calls.{message_call};

use receiver_bytes::layout::RECEIVER;

// Start: the number of blocks less 1, and the full size of a block.
#[unsafe(no_mangle)]
pub extern "C" fn reidhintsje_flood_fill_start(
    receiver: &mut [u8; RECEIVER],
    image: &[u8],
    last_block: u32,
    size: u32,
    outcome: &mut [u64; 8],
) -> u32
    ensures value { result ≡ first outcome.new }
    ensures outcome_after { outcome.new ≡ (message_call receiver.old image.now (messages.Start last_block size)).numbers }
    ensures receiver_after { receiver.new ≡ (message_call receiver.old image.now (messages.Start last_block size)).receiver }
{
    reidhintsje::message::reidhintsje_flood_fill_start(receiver, image, last_block, size, outcome)
}

// Block Start: a block, and its own size.
#[unsafe(no_mangle)]
pub extern "C" fn reidhintsje_flood_fill_block_start(
    receiver: &mut [u8; RECEIVER],
    image: &[u8],
    block: u32,
    size: u32,
    outcome: &mut [u64; 8],
) -> u32
    ensures value { result ≡ first outcome.new }
    ensures outcome_after { outcome.new ≡ (message_call receiver.old image.now (messages.BlockStart block size)).numbers }
    ensures receiver_after { receiver.new ≡ (message_call receiver.old image.now (messages.BlockStart block size)).receiver }
{
    reidhintsje::message::reidhintsje_flood_fill_block_start(receiver, image, block, size, outcome)
}

// Block Data: a word of a block.
#[unsafe(no_mangle)]
pub extern "C" fn reidhintsje_flood_fill_block_data(
    receiver: &mut [u8; RECEIVER],
    image: &[u8],
    block: u32,
    word_id: u32,
    word: u32,
    outcome: &mut [u64; 8],
) -> u32
    ensures value { result ≡ first outcome.new }
    ensures outcome_after { outcome.new ≡ (message_call receiver.old image.now (messages.BlockData block word_id word)).numbers }
    ensures receiver_after { receiver.new ≡ (message_call receiver.old image.now (messages.BlockData block word_id word)).receiver }
{
    reidhintsje::message::reidhintsje_flood_fill_block_data(
        receiver, image, block, word_id, word, outcome,
    )
}

// Block End: the words of a complete block go into the image.
#[unsafe(no_mangle)]
pub extern "C" fn reidhintsje_flood_fill_block_end(
    receiver: &mut [u8; RECEIVER],
    image: &mut [u8],
    block: u32,
    outcome: &mut [u64; 8],
) -> u32
    ensures value { result ≡ first outcome.new }
    ensures outcome_after { outcome.new ≡ (message_call receiver.old image.old (messages.BlockEnd block)).numbers }
    ensures receiver_after { receiver.new ≡ (message_call receiver.old image.old (messages.BlockEnd block)).receiver }
    ensures image_after { image.new ≡ (message_call receiver.old image.old (messages.BlockEnd block)).image }
{
    reidhintsje::message::reidhintsje_flood_fill_block_end(receiver, image, block, outcome)
}
