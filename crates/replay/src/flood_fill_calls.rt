// The calls of the flood-fill receiver. The table has the receiver, the memory its image.
use crate::bytes::Buffers;
use crate::output::{Answer, Hex};
use receiver_bytes::layout::RECEIVER;
use reidhintsje::message::reidhintsje_flood_fill_block_end;
use std::io;

// Makes a call, and writes what it answered and the receiver that it left.
pub(crate) fn left<R: Print, F: FnOnce(&mut [u8; RECEIVER], &mut [u8], &mut [u64; 8]) -> u32>(
    rt: &R,
    buffers: &mut Buffers,
    call: F,
) -> io::Result<()>
    requires { F.IsAlwaysCallable call }
{
    // a table of another length was refused where it was read
    let Some(receiver) = buffers.table.as_mut_slice().as_mut_array::<RECEIVER>() else {
        return Ok(());
    };
    let mut outcome = [0; 8];
    let number = call(receiver, buffers.memory.as_mut_slice(), &mut outcome);
    println!(rt; "{}\n{}", Answer { number, outcome }, Hex(receiver))
}

pub(crate) fn block_end<R: Print>(rt: &R, buffers: &mut Buffers, block: u32) -> io::Result<()> {
    left(rt, buffers, |receiver, image, outcome| {
        reidhintsje_flood_fill_block_end(receiver, image, block, outcome)
    })?;
    rt.println(Hex(buffers.memory.as_slice()))
}
