// The calls of the library for C.
use crate::bytes::Buffers;
use crate::output::{Answer, Hex, Shortened};
use reidhintsje::comparison::reidhintsje_compare;
use reidhintsje::load::{reidhintsje_aplx_load, reidhintsje_srom_load};
use reidhintsje::packet::reidhintsje_scp_answer;
use reidhintsje::plans::{reidhintsje_aplx_check, reidhintsje_plan_read};
use reidhintsje::table::{reidhintsje_map_add, reidhintsje_map_sound};
use std::io;

pub(crate) fn map_add<R: Print>(
    rt: &R,
    buffers: &mut Buffers,
    base: u32,
    length: u32,
    place: u32,
    rights: u32,
) -> io::Result<()> {
    let number = reidhintsje_map_add(buffers.table.as_mut_slice(), base, length, place, rights);
    println!(rt; "{number}\n{}", Hex(buffers.table.as_slice()))
}

pub(crate) fn map_sound<R: Print>(rt: &R, buffers: &Buffers, size: usize) -> io::Result<()> {
    rt.println(reidhintsje_map_sound(buffers.table.as_slice(), size))
}

pub(crate) fn srom_load<R: Print>(rt: &R, buffers: &mut Buffers, offset: usize) -> io::Result<()> {
    let table = buffers.table.as_slice();
    let memory = buffers.memory.as_mut_slice();
    let input = buffers.input.as_slice();
    let answer = Answer::of(|outcome| reidhintsje_srom_load(table, memory, input, offset, outcome));
    println!(rt; "{answer}\n{}", Hex(memory))
}

pub(crate) fn aplx_load<R: Print>(rt: &R, buffers: &mut Buffers, header: u32) -> io::Result<()> {
    let table = buffers.table.as_slice();
    let memory = buffers.memory.as_mut_slice();
    let answer = Answer::of(|outcome| reidhintsje_aplx_load(table, memory, header, outcome));
    println!(rt; "{answer}\n{}", Hex(memory))
}

pub(crate) fn scp_answer<R: Print>(
    rt: &R,
    buffers: &mut Buffers,
    identity: [u32; 5],
) -> io::Result<()> {
    let table = buffers.table.as_slice();
    let memory = buffers.memory.as_mut_slice();
    let output = buffers.output.as_mut_slice();
    let input = buffers.input.as_slice();
    let answer = Answer::of(|outcome| {
        reidhintsje_scp_answer(table, memory, &identity, input, output, outcome)
    });
    println!(rt; "{answer}\n{}\n{}", Hex(memory), Hex(output))
}

pub(crate) fn plan_read<R: Print>(rt: &R, buffers: &Buffers, target: u32) -> io::Result<()> {
    let plan = buffers.input.as_slice();
    rt.println(Answer::of(|outcome| reidhintsje_plan_read(plan, target, outcome)))
}

// A call that writes what it makes of the input to the output.
pub(crate) fn written<R: Print, F: FnOnce(&[u8], &mut [u8], &mut [u64; 8]) -> u32>(
    rt: &R,
    buffers: &mut Buffers,
    call: F,
) -> io::Result<()>
    requires { F.IsAlwaysCallable call }
{
    let mut outcome = [0; 8];
    let output = buffers.output.as_mut_slice();
    let number = call(buffers.input.as_slice(), output, &mut outcome);
    println!(rt; "{}\n{}", Answer { number, outcome }, Hex(output))
}

pub(crate) fn compare<R: Print>(rt: &R, buffers: &mut Buffers) -> io::Result<()> {
    let old = buffers.memory.as_slice();
    let new = buffers.input.as_slice();
    let output = buffers.output.as_mut_slice();
    let answer = Answer::of(|outcome| reidhintsje_compare(old, new, output, outcome));
    println!(rt; "{answer}\n{}", Shortened(output))
}

pub(crate) fn aplx_check<R: Print>(rt: &R, buffers: &Buffers) -> io::Result<()> {
    let plan = buffers.memory.as_slice();
    let image = buffers.input.as_slice();
    rt.println(Answer::of(|outcome| reidhintsje_aplx_check(plan, image, outcome)))
}
