// The byte strings of the calls, as a line writes them and as a call leaves them.
use crate::scan::{decimal, hex_digit, split_once};

// The most bytes of a byte string.
const MOST_BYTES: usize = 8192;

// The most times that the bytes of a part stand in a row.
const MOST_TIMES: u32 = 65536;

// A byte string.
#[derive(Clone, Copy)]
pub(crate) struct Bytes {
    bytes: [u8; MOST_BYTES],
    length: usize,
}

impl Bytes {
    pub fn new() -> Bytes {
        Bytes {
            bytes: [0; MOST_BYTES],
            length: 0,
        }
    }

    pub fn as_slice(&self) -> &[u8] {
        let end = self.length.min(MOST_BYTES);
        &self.bytes[..end]
    }

    pub fn as_mut_slice(&mut self) -> &mut [u8] {
        let end = self.length.min(MOST_BYTES);
        &mut self.bytes[..end]
    }

    // Adds a byte, where there are not the most.
    fn push(&mut self, byte: u8) -> Option<()> {
        *self.bytes.get_mut(self.length)? = byte;
        self.length += 1;
        Some(())
    }
}

// What the last call that had one left: a table (or a flood-fill receiver), a memory, an output, an input.
#[derive(Clone, Copy)]
pub(crate) struct Buffers {
    pub table: Bytes,
    pub memory: Bytes,
    pub output: Bytes,
    pub input: Bytes,
}

impl Buffers {
    pub fn new() -> Buffers {
        Buffers {
            table: Bytes::new(),
            memory: Bytes::new(),
            output: Bytes::new(),
            input: Bytes::new(),
        }
    }
}

// Adds the bytes of pairs of hex digits.
fn add_pairs(bytes: &mut Bytes, digits: &[u8]) -> Option<()> {
    for pair in digits.chunks(2) {
        let [high, low] = pair else {
            return None;
        };
        bytes.push(16 * hex_digit(*high)? + hex_digit(*low)?)?;
    }
    Some(())
}

// How often the bytes of a part stand in a row.
fn times_of(text: &[u8]) -> Option<u32> {
    match decimal(text)? {
        times @ 1..=MOST_TIMES => Some(times),
        _ => None,
    }
}

// Adds the bytes of a part.
fn add_part(bytes: &mut Bytes, part: &[u8]) -> Option<()> {
    let part = part.strip_prefix(b"x")?;
    let (digits, times) = match split_once(part, b'*') {
        Some((digits, times)) => (digits, times_of(times)?),
        None => (part, 1),
    };
    let from = bytes.length;
    add_pairs(bytes, digits)?;
    let end = bytes.length;
    for _ in 1..times {
        for i in from..end {
            let byte = *bytes.bytes.get(i)?;
            bytes.push(byte)?;
        }
    }
    Some(())
}

// Reads a byte string; where it is the last call's, the bytes stay.
pub(crate) fn read(bytes: &mut Bytes, text: &[u8]) -> Option<()> {
    if text == b"=".as_slice() {
        return Some(());
    }
    bytes.length = 0;
    for part in text.split(|character| *character == b'+') {
        add_part(bytes, part)?;
    }
    Some(())
}
