// The messages in data/messages, given to a receiver that is a struct; writes what each is answered, and the image at the end.
// second/programs.py makes them. A message is five words: its kind, the bytes of the image that are lent with it, and its numbers.
#![tactic(auto)]

ghost use Rattle.std.specs.Prelude.{◌≡◌, length};

use flood_fill::message::Message;
use flood_fill::receiver::{Progress, Receiver};
use outcome::refusal::Refusal;
use std::{fs, io};
use words::read::le_word_at;

const MESSAGE_BYTES: usize = 20;

// Kinds; any other number is a Block End.
const START: u32 = 0;

const BLOCK_START: u32 = 1;

const BLOCK_DATA: u32 = 2;

fn message_of(bytes: &[u8]) -> Message {
    let first = le_word_at(bytes, 8);
    let second = le_word_at(bytes, 12);
    match le_word_at(bytes, 0) {
        START => Message::Start {
            last_block: first,
            size: second,
        },
        BLOCK_START => Message::BlockStart {
            block: first,
            size: second,
        },
        BLOCK_DATA => Message::BlockData {
            block: first,
            word_id: second,
            word: le_word_at(bytes, 16),
        },
        _ => Message::BlockEnd { block: first },
    }
}

fn write<R: Print>(rt: &R, answer: Result<Progress, Refusal>) -> io::Result<()> {
    match answer {
        Err(refusal) => println!(rt; "refused {} {}", refusal.cause.number(), refusal.place),
        Ok(Progress::Accepted) => println!(rt; "accepted"),
        Ok(Progress::Ignored) => println!(rt; "ignored"),
        Ok(Progress::Missing { number, lowest }) => println!(rt; "missing {number} {lowest}"),
        Ok(Progress::Done) => println!(rt; "done"),
    }
}

// The receiver gets a message, with the first bytes of the image.
fn step<R: Print>(
    rt: &R,
    receiver: &mut Receiver,
    bytes: &[u8],
    image: &mut [u8],
) -> io::Result<()> {
    let lent = (le_word_at(bytes, 4) as usize).min(image.len());
    let answer = receiver.receive(message_of(bytes), &mut image[..lent]);
    write(rt, answer)
}

// Room for the messages. Its length is all that is known of it, so that a proof need not go through it.
fn room() -> [u8; 65536]
    ensures { 65536 ≡ length result }
{
    [0; 65536]
}

fn main(rt: HostRuntime) -> io::Result<()> {
    let mut file = fs::open(&rt, "messages")?;
    let mut messages = room();
    let n = file_bytes::read_full(&mut file, &mut messages);
    let mut image = [0xeeu8; 1200];
    let mut receiver = Receiver::empty();
    for message in messages[..n].chunks_exact(MESSAGE_BYTES) {
        step(&rt, &mut receiver, message, &mut image)?;
    }
    rt.write_all(&image)
}
