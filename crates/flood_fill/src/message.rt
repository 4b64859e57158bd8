// The messages, taken apart. Numbers are as they came: nothing is granted of them.
#[derive(Clone, Copy, Debug, PartialEq, Eq)]
pub enum Message {
    // the number of blocks less 1, and the full size of a block in words
    Start { last_block: u32, size: u32 },
    // a block's ID, and its own size
    BlockStart { block: u32, size: u32 },
    // a word of a block
    BlockData { block: u32, word_id: u32, word: u32 },
    BlockEnd { block: u32 },
}
