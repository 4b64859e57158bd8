// Replays the calls that two files name, and writes what they answer. The head of data/cases says how they are written.
#![tactic(auto)]

ghost use Rattle.std.specs.Prelude.{◌≡◌, length};

use std::io;
use std::rt::Files;

mod scan; // the characters of a line
mod bytes; // the byte strings of the calls
mod arguments; // the arguments of a line
mod call; // the calls
mod read; // which call a line names, and its arguments
mod lines; // one line after the other
mod make; // makes a call
mod library; // the calls of the library for C
mod maps; // the questions that a map alone answers
mod flood_fill_calls; // the calls of the flood-fill receiver
mod output; // what is written

// The bytes of a file that are read. One that has as many may be longer, and isn't replayed.
const MOST_BYTES: usize = 1048576;

// Whether the text of a file was replayed to its end.
fn replayed<R: Print>(rt: &R, text: &[u8]) -> io::Result<bool> {
    if text.is_empty() {
        println!(rt; "a file is empty, or was not found")?;
        return Ok(false);
    }
    if text.len() >= MOST_BYTES {
        println!(rt; "a file is too long")?;
        return Ok(false);
    }
    lines::all(rt, text)
}

// Room for the text of a file. Its length is all that is known of it, so that a proof need not go through it.
fn room() -> [u8; MOST_BYTES]
    ensures { 1048576 ≡ length result }
{
    [0; MOST_BYTES]
}

fn file<R: Files + Print>(rt: &R, name: &str) -> io::Result<bool> {
    let mut text = room();
    let end = file_bytes::read_file(rt, name, &mut text);
    replayed(rt, &text[..end])
}

fn main(rt: HostRuntime) -> io::Result<()> {
    if file(&rt, "cases")? {
        file(&rt, "vectors")?;
    }
    Ok(())
}
