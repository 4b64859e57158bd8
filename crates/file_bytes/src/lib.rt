// The first bytes of a file or of standard input, at a buffer's front.
#![tactic(auto)]

ghost use Rattle.std.specs.Prelude.{take};
ghost use Rattle.std.specs.Io.KnownBytes.{Consumes};
ghost use Rattle.file_bytes.specs.Counts.{IsPrefixLen};

use std::fs;
use std::io::Read;
use std::rt::Files;

// Reads until the buffer is full, the input ends or a read fails. Answers how many bytes stand at the buffer's front.
pub fn read_full<R: Read>(reader: &mut R, buffer: &mut [u8]) -> usize
    ensures prefix_len { IsPrefixLen result buffer.new }
    ensures bytes { Consumes (R.remaining reader.old) (R.remaining reader.new) (take result buffer.new) }
{
    let mut done: usize = 0;
    while done < buffer.len() {
        match reader.read(&mut buffer[done..]) {
            Ok(0) => return done,
            Ok(n) => done += n,
            Err(_) => return done,
        }
    }
    done
}

// The bytes of a file, as many as fit, at the buffer's front; none where it can't be opened. Answers their number.
pub fn read_file<R: Files>(rt: &R, path: &str, buffer: &mut [u8]) -> usize
    ensures { IsPrefixLen result buffer.new }
{
    match fs::open(rt, path) {
        Ok(mut file) => read_full(&mut file, buffer),
        Err(_) => 0,
    }
}
