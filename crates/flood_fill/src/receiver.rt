// The receiver: its state, and what a message does to it.
ghost use Rattle.std.specs.Prelude.{◌≡◌, true, List, ℕ, ◌≤◌, min, length, set};
ghost use Rattle.flood_fill.specs.Refusals.{open_size, passed, test_block_start, tested};
ghost use Rattle.flood_fill.specs.Receive.{afresh, empty, block_started, data_came, completed, block_ended, performed, receive, step_is, result_is, WithAnyImage};

use crate::flags::{is_set, lowest, missing};
use crate::header::{Block, Header};
use crate::message::Message;
use crate::store::put_words;
use crate::test::{is_wanted, test};
use outcome::refusal::Refusal;

// The blocks that can be done, and the words that can be kept.
const PLACES: usize = 256;

// The state: which blocks are done, and of the open block which words came, and the words.
#[derive(Clone, Copy, Debug, PartialEq, Eq)]
pub struct Receiver {
    pub header: Header,
    pub done: [bool; 256],
    pub marks: [bool; 256],
    pub words: [u32; 256],
}

// What a message that is not refused is answered: done as asked; ignored; a Block End whose block lacks words, with their number and the
// lowest of them; a Block End that completed its block.
#[derive(Clone, Copy, Debug, PartialEq, Eq)]
pub enum Progress {
    Accepted,
    Ignored,
    Missing { number: u16, lowest: u16 },
    Done,
}

// The words of the open block that there are places for.
pub fn open_words(opened: Option<Block>) -> usize
    ensures { result ≡ min (open_size opened) 256 }
{
    match opened {
        None => 0,
        Some(open) => (open.size as usize).min(PLACES),
    }
}

// One more flag is set; past the end there is none.
fn set(flags: &mut [bool; 256], at: usize)
    ensures { flags.new ≡ set flags.old at true }
{
    if at < PLACES {
        flags[at] = true;
    }
}

impl Receiver {
    // Begins afresh: nothing is done, open or marked.
    fn afresh(count: u16, size: u16) -> Receiver
        ensures { result ≡ afresh count size }
    {
        Receiver {
            header: Header {
                count,
                size,
                opened: None,
            },
            done: [false; 256],
            marks: [false; 256],
            words: [0; 256],
        }
    }

    // No Start came.
    pub fn empty() -> Receiver
        ensures { result ≡ empty }
    {
        Receiver::afresh(0, 0)
    }

    // Opens a block, with no word marked.
    #[tactic(auto, unfolding(crate::specs::Receive::block_started, crate::specs::Refusals::test_block_start))]
    fn block_start(&mut self, block: u32, size: u32) -> Progress
        requires { test_block_start self.old.header block size ≡ passed }
        ensures { WithAnyImage self.new result (λ (image : List ℕ). block_started self.old image block size) }
    {
        if is_set(&self.done, block as usize) {
            return Progress::Ignored;
        }
        self.header = self.header.with_open(block, size);
        self.marks = [false; 256];
        Progress::Accepted
    }

    // Keeps a word of the open block that is not marked.
    #[tactic(auto, unfolding(crate::specs::Receive::data_came))]
    fn block_data(&mut self, block: u32, word_id: u32, word: u32) -> Progress
        ensures { WithAnyImage self.new result (λ (image : List ℕ). data_came self.old image block word_id word) }
    {
        let at = word_id as usize;
        if !is_wanted(self.header.opened, block, word_id) || is_set(&self.marks, at) {
            return Progress::Ignored;
        }
        self.words[at] = word;
        self.marks[at] = true;
        Progress::Accepted
    }

    // The open block is done: its words go into the image.
    #[tactic(auto, unfolding(crate::specs::Receive::completed))]
    fn complete(&mut self, image: &mut [u8], block: u32, used: usize) -> Progress
        requires { used ≤ 256 }
        ensures { step_is self.new result image.new ≡ completed self.old image.old block used }
    {
        let at = 4 * (block as usize * (self.header.size as usize));
        put_words(image, at, &self.words[..used]);
        self.header.opened = None;
        set(&mut self.done, block as usize);
        Progress::Done
    }

    // The end of the open block.
    #[tactic(auto, unfolding(crate::specs::Receive::block_ended))]
    fn block_end(&mut self, image: &mut [u8], block: u32) -> Progress
        ensures { step_is self.new result image.new ≡ block_ended self.old image.old block (open_size self.old.header.opened) }
    {
        let used = open_words(self.header.opened);
        let number = missing(&self.marks[..used]);
        if number > 0 {
            let lowest = lowest(&self.marks[..used]);
            return Progress::Missing {
                number: number as u16,
                lowest: lowest as u16,
            };
        }
        self.complete(image, block, used)
    }

    // Does what a message that passed its tests asks for.
    #[tactic(auto, unfolding(crate::specs::Refusals::tested, crate::specs::Refusals::test_start))]
    fn perform(&mut self, message: Message, image: &mut [u8]) -> Progress
        requires { tested self.old.header message (length image.old) ≡ passed }
        ensures { step_is self.new result image.new ≡ performed self.old image.old message }
    {
        match message {
            Message::Start { last_block, size } => {
                *self = Receiver::afresh((last_block + 1) as u16, size as u16);
                Progress::Accepted
            }
            Message::BlockStart { block, size } => self.block_start(block, size),
            Message::BlockData {
                block,
                word_id,
                word,
            } => self.block_data(block, word_id, word),
            Message::BlockEnd { block } => self.block_end(image, block),
        }
    }

    // What a message does to the receiver and to the lent image, and its answer. A refused message changes nothing; its refusal names no
    // place.
    #[tactic(auto, unfolding(crate::specs::Receive::receive))]
    pub fn receive(&mut self, message: Message, image: &mut [u8]) -> Result<Progress, Refusal>
        ensures { result_is self.new result image.new ≡ receive self.old image.old message }
    {
        test(self.header, message, image.len()).map_err(|cause| cause.at(0))?;
        Ok(self.perform(message, image))
    }
}
