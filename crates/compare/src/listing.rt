// The list of stretches.
ghost use Rattle.std.specs.Prelude.{◌≡◌, ◌&&◌, List, ◌+◌, ◌*◌, ◌≤◌, ◌<◌, ltb, eqb, length};
ghost use Rattle.words.specs.Store.{store};
ghost use Rattle.stretches.specs.Stretches as definition;
ghost use Rattle.compare.specs.Reading.{addresses};
ghost use Rattle.compare.specs.Code.Listed.{stretch_is, last_listed, Listed};
ghost use Rattle.compare.specs.Code.Collected.{with_block};
ghost use Rattle.compare.specs.Compare.{most_stretches, stretch_size, stretch_bytes};

use crate::block::Block;
use crate::compare::{MOST_STRETCHES, STRETCH_SIZE};

// One stretch more than an answer has at most, so that one more can always be added.
const ROOM: usize = MOST_STRETCHES + 1;

// Addresses at which two plans differ: the first and the last, and the old and the new byte at the first.
#[derive(Clone, Copy, Debug, PartialEq, Eq)]
pub(crate) struct Stretch {
    pub first: u32,
    pub last: u32,
    pub old: u32,
    pub new: u32,
}

// The first `count` stretches are listed.
#[derive(Clone, Copy)]
pub(crate) struct Listing {
    pub stretches: [Stretch; ROOM],
    pub count: usize,
}

impl Listing {
    // None yet.
    pub(crate) fn new() -> Listing
        ensures { result.count ≡ 0 }
    {
        let none = Stretch {
            first: 0,
            last: 0,
            old: 0,
            new: 0,
        };
        Listing {
            stretches: [none; ROOM],
            count: 0,
        }
    }

    // Whether the last stretch ends just before an address.
    fn ends_before(&self, address: u32) -> bool
        requires { self.now.count ≤ most_stretches }
        ensures { result ≡ (ltb 0 self.now.count && eqb ((last_listed self.now).last + 1) address) }
    {
        self.count > 0 && self.stretches[self.count - 1].last as u64 + 1 == address as u64
    }

    // One stretch more.
    fn add(&mut self, stretch: Stretch)
        requires { self.old.count ≤ most_stretches }
        ensures listing { (l : List definition.Stretch) → Listed self.old l → Listed self.new (definition.add (stretch_is stretch) l) }
        ensures upper_bound { self.new.count ≤ self.old.count + 1 }
    {
        if self.ends_before(stretch.first) {
            self.stretches[self.count - 1].last = stretch.last;
        } else {
            self.stretches[self.count] = stretch;
            self.count += 1;
        }
    }

    // The list with the block of addresses that begins at `at`.
    pub(crate) fn add_block(&mut self, at: u64, block: Block)
        requires { (self.old.count ≤ most_stretches) × (at < block.end) × (block.end ≤ addresses) }
        ensures listing { (l : List definition.Stretch) → Listed self.old l → Listed self.new (with_block at block l) }
        ensures upper_bound { self.new.count ≤ self.old.count + 1 }
    {
        if block.old != block.new {
            self.add(Stretch {
                first: at as u32,
                last: (block.end - 1) as u32,
                old: block.old,
                new: block.new,
            });
        }
    }

    // The stretches, at the output's front.
    pub(crate) fn put(&self, output: &mut [u8])
        requires { (stretch_size * most_stretches ≤ length output.old) × (self.now.count ≤ most_stretches) }
        ensures { (l : List definition.Stretch) → Listed self.now l → output.new ≡ store output.old 0 (stretch_bytes l) }
    {
        for (i, stretch) in self.stretches[..self.count].iter().enumerate() {
            words::four::put(
                output,
                STRETCH_SIZE * i,
                stretch.first,
                stretch.last,
                stretch.old,
                stretch.new,
            );
        }
    }
}
