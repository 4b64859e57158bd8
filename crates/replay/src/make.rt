// Makes a call with the bytes and numbers that were read, and writes what it answers.
use crate::bytes::Buffers;
use crate::call::Call;
use crate::{flood_fill_calls, library, maps};
use reidhintsje::message::{
    reidhintsje_flood_fill_block_data, reidhintsje_flood_fill_block_end,
    reidhintsje_flood_fill_block_start, reidhintsje_flood_fill_start,
};
use reidhintsje::plans::{
    reidhintsje_aplx_read, reidhintsje_pack_aplx, reidhintsje_pack_aplx_shared,
    reidhintsje_pack_srom,
};
use std::io;

pub(crate) fn make<R: Print>(rt: &R, call: Call, buffers: &mut Buffers) -> io::Result<()> {
    match call {
        Call::MapAdd {
            base,
            length,
            place,
            rights,
        } => library::map_add(rt, buffers, base, length, place, rights),
        Call::MapSound { size } => library::map_sound(rt, buffers, size),
        Call::Lookup {
            right,
            address,
            length,
        } => maps::lookup(rt, buffers.table.as_slice(), right, address, length),
        Call::RunEntry { address } => maps::run_entry(rt, buffers.table.as_slice(), address),
        Call::SromLoad { offset } => library::srom_load(rt, buffers, offset),
        Call::AplxLoad { header } => library::aplx_load(rt, buffers, header),
        Call::ScpAnswer { identity } => library::scp_answer(rt, buffers, identity),
        Call::PlanRead { target } => library::plan_read(rt, buffers, target),
        Call::PackSrom => library::written(rt, buffers, reidhintsje_pack_srom),
        Call::PackAplx => library::written(rt, buffers, reidhintsje_pack_aplx),
        Call::PackAplxShared => library::written(rt, buffers, reidhintsje_pack_aplx_shared),
        Call::AplxRead => library::written(rt, buffers, reidhintsje_aplx_read),
        Call::Compare => library::compare(rt, buffers),
        Call::AplxCheck => library::aplx_check(rt, buffers),
        Call::FloodFillStart { last_block, size } => {
            flood_fill_calls::left(rt, buffers, |receiver, image, outcome| {
                reidhintsje_flood_fill_start(receiver, image, last_block, size, outcome)
            })
        }
        Call::FloodFillBlockStart { block, size } => {
            flood_fill_calls::left(rt, buffers, |receiver, image, outcome| {
                reidhintsje_flood_fill_block_start(receiver, image, block, size, outcome)
            })
        }
        Call::FloodFillBlockData {
            block,
            word_id,
            word,
        } => flood_fill_calls::left(rt, buffers, |receiver, image, outcome| {
            reidhintsje_flood_fill_block_data(receiver, image, block, word_id, word, outcome)
        }),
        Call::FloodFillBlockEnd { block } => flood_fill_calls::block_end(rt, buffers, block),
    }
}
