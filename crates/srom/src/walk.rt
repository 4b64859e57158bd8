// What stands at an offset of the ROM, and the walk to the stop. Nothing is stored.
ghost use Rattle.std.specs.Prelude.{◌≡◌, ◌+◌, ◌≤◌, ◌<◌, length, get_or};
ghost use Rattle.outcome.specs.Outcome.{outcome_of};
ghost use Rattle.memory_map.specs.Lookup.{lookup};
ghost use Rattle.memory_map.specs.Entry.{run_entry};
ghost use Rattle.srom.specs.Walk.{run_of, data_block, block_at, item_at, walk, pads_end};
ghost use Rattle.srom.specs.Load.{outcome_of_walk};
ghost use Rattle.srom.specs.Code.{item_of, block_of};

use crate::rom::Rom;
use memory_region::region::Right;
use outcome::answer::{Load, Stop};
use outcome::refusal::{Cause, Refusal};

const PAD: u8 = 0x55;

const START: u8 = 0x3a;

// An item that is no pad. A block's data stands from `from` to `to`, where the next item begins.
#[derive(Clone, Copy, Debug, PartialEq, Eq)]
pub(crate) enum Item {
    Block {
        address: u32,
        place: usize,
        from: usize,
        to: usize,
    },
    Halt(Stop),
}

// The offset of the first byte from an offset on that is no pad.
pub(crate) fn pads_end(s: &[u8], offset: usize) -> usize
    ensures { result ≡ pads_end s.now offset }
{
    let mut i = offset;
    let at = loop {
        if i >= s.len() {
            break i;
        }
        if s[i] != PAD {
            break i;
        }
        i += 1;
    };
    at
}

// A block without data, at an offset: a run.
fn run_item(rom: &Rom, at: usize, address: u32) -> Result<Item, Cause>
    requires { at + 7 ≤ length rom.now.bytes.now }
    ensures { block_of at result ≡ run_of (run_entry (lookup rom.now.map) address) at }
{
    let entry = rom.map.run_entry(address)?;
    let resume = (at + 7) as u32;
    Ok(Item::Halt(Stop::Run { entry, resume }))
}

// A block of so many words for an address, at an offset.
#[tactic(auto, unfolding(crate::specs::Walk::data_block))]
fn data_item(rom: &Rom, at: usize, words: u16, address: u32) -> Result<Item, Cause>
    requires { at + 7 ≤ length rom.now.bytes.now }
    ensures { block_of at result ≡ data_block (lookup rom.now.map) rom.now.bytes.now at words address }
{
    if address % 4 != 0 {
        return Err(Cause::NotAligned);
    }
    let from = at + 7;
    let size = 4 * (words as usize);
    if rom.bytes.len() - from < size {
        return Err(Cause::CutShort);
    }
    let place = rom.map.lookup(Right::Write, address, size as u64)?;
    Ok(Item::Block {
        address,
        place,
        from,
        to: from + size,
    })
}

// The block whose start byte is at an offset. A refusal of it has that place.
#[tactic(auto, unfolding(crate::specs::Walk::block_at))]
fn block_item(rom: &Rom, at: usize) -> Result<Item, Cause>
    requires { at < length rom.now.bytes.now }
    ensures { block_of at result ≡ block_at (lookup rom.now.map) rom.now.bytes.now at }
{
    if rom.bytes.len() - at < 7 {
        return Err(Cause::CutShort);
    }
    let length = at + 1;
    let address = at + 3;
    let n = words::read::be_half(&rom.bytes[length..]);
    let a = words::read::be_word(&rom.bytes[address..]);
    if n == 0 {
        return run_item(rom, at, a);
    }
    data_item(rom, at, n, a)
}

// The item at an offset where no pad stands.
#[tactic(auto, unfolding(crate::specs::Walk::item_at))]
fn item_at(rom: &Rom, at: usize) -> Result<Item, Refusal>
    requires { at < length rom.now.bytes.now → get_or rom.now.bytes.now at 0 ≡ 0x55 → ⊥ }
    ensures { item_of result ≡ item_at (lookup rom.now.map) rom.now.bytes.now at }
{
    if at >= rom.bytes.len() {
        return Err(Cause::CutShort.at(rom.bytes.len()));
    }
    if rom.bytes[at] == START {
        return match block_item(rom, at) {
            Ok(item) => Ok(item),
            Err(cause) => Err(cause.at(at)),
        };
    }
    Ok(Item::Halt(Stop::End { place: at }))
}

// The first item from an offset on that is no pad.
pub(crate) fn next_item(rom: &Rom, offset: usize) -> Result<Item, Refusal>
    ensures { item_of result ≡ item_at (lookup rom.now.map) rom.now.bytes.now (pads_end rom.now.bytes.now offset) }
{
    item_at(rom, pads_end(rom.bytes, offset))
}

// The walk from an offset to the stop, with the blocks and bytes on the way counted.
pub(crate) fn walk_blocks(rom: &Rom, offset: usize) -> Result<Load, Refusal>
    ensures { outcome_of result ≡ outcome_of_walk (walk (lookup rom.now.map) rom.now.bytes.now offset) }
{
    let mut next = offset;
    let mut taken: usize = 0;
    let mut stored: u64 = 0;
    loop {
        match next_item(rom, next)? {
            Item::Block { from, to, .. } => {
                taken += 1;
                stored += (to - from) as u64;
                next = to;
            }
            Item::Halt(stop) => {
                return Ok(Load {
                    stop,
                    taken,
                    stored,
                });
            }
        }
    }
}
