// The arguments of a line, one after the other.
use crate::bytes::{self, Bytes};
use crate::scan::{decimal, split_once};
use receiver_bytes::layout::RECEIVER;
use std::str::FromStr;

// The arguments that are left, each but the first behind a space.
#[derive(Drop)]
pub(crate) struct Arguments<'a> {
    rest: Option<&'a [u8]>,
}

impl<'a> Arguments<'a> {
    pub fn new(text: &'a [u8]) -> Arguments<'a> {
        Arguments { rest: Some(text) }
    }

    fn next(&mut self) -> Option<&'a [u8]> {
        let text = self.rest?;
        match split_once(text, b' ') {
            Some((argument, rest)) => {
                self.rest = Some(rest);
                Some(argument)
            }
            None => {
                self.rest = None;
                Some(text)
            }
        }
    }

    // A byte string. Where it is the last call's, the bytes stay.
    pub fn bytes(&mut self, bytes: &mut Bytes) -> Option<()> {
        bytes::read(bytes, self.next()?)
    }

    // A flood-fill receiver: a table of its length.
    pub fn receiver(&mut self, table: &mut Bytes) -> Option<()> {
        self.bytes(table)?;
        (table.as_slice().len() == RECEIVER).then_some(())
    }

    pub fn number<N: FromStr>(&mut self) -> Option<N>
    where
        N::Err: Drop,
    {
        decimal(self.next()?)
    }

    // Whether there was no argument behind the last one.
    pub fn is_done(&self) -> bool {
        self.rest.is_none()
    }
}
