// What is written: the numbers of an answer, and bytes in hex.
use std::fmt;

// The number that a call returned and those of its outcome.
#[derive(Clone, Copy)]
pub(crate) struct Answer {
    pub number: u32,
    pub outcome: [u64; 8],
}

impl Answer {
    // What a call answers that is lent an outcome.
    pub(crate) fn of<F: FnOnce(&mut [u64; 8]) -> u32>(call: F) -> Answer
        requires { F.IsAlwaysCallable call }
    {
        let mut outcome = [0; 8];
        let number = call(&mut outcome);
        Answer { number, outcome }
    }
}

impl fmt::Display for Answer {
    fn fmt<W: fmt::Write>(&self, f: &mut fmt::Formatter<W>) -> fmt::Result {
        write!(f, "{}", self.number)?;
        for part in &self.outcome {
            write!(f, " {part}")?;
        }
        Ok(())
    }
}

// Bytes in hex.
#[derive(Clone, Copy)]
pub(crate) struct Hex<'a>(pub &'a [u8]);

impl fmt::Display for Hex<'_> {
    fn fmt<W: fmt::Write>(&self, f: &mut fmt::Formatter<W>) -> fmt::Result {
        for byte in self.0 {
            write!(f, "{byte:02x}")?;
        }
        Ok(())
    }
}

// Bytes in hex; those at the end that are all the same stand as one of them and their number.
#[derive(Clone, Copy)]
pub(crate) struct Shortened<'a>(pub &'a [u8]);

impl fmt::Display for Shortened<'_> {
    fn fmt<W: fmt::Write>(&self, f: &mut fmt::Formatter<W>) -> fmt::Result {
        let Some(last) = self.0.last() else {
            return Ok(());
        };
        let row = self.0.iter().rev().take_while(|byte| *byte == last).count();
        let (front, row) = self.0.split_at(self.0.len() - row);
        write!(f, "{}+{last:02x}*{}", Hex(front), row.len())
    }
}
