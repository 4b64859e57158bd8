// Two plans compared.
ghost use Rattle.std.specs.Prelude.{◌≡◌, ◌*◌, ◌≤◌, length};
ghost use Rattle.compare.specs.Reading.{addresses, read_compared};
ghost use Rattle.compare.specs.Compare.{most_stretches, stretch_size, compared_below, compared, output_after};
ghost use Rattle.compare.specs.Code.{Comparable, read_as, image_of, outcome_of, outcome_is};
ghost use Rattle.compare.specs.Code.Block.{Sides};
ghost use Rattle.compare.specs.Code.Collected.{Collected};

use crate::block::block_at;
use crate::listing::Listing;
use crate::reading::{ADDRESSES, read};
use crate::run::{FirstStretch, stretch_of};
use crate::sides::{Sources, sources_at};
use outcome::refusal::{Cause, Refusal};

// The stretches that an answer has at most, the bytes of a stretch, and those of an output that holds them.
pub const MOST_STRETCHES: usize = 512;

pub const STRETCH_SIZE: usize = 16;

pub const OUTPUT_SIZE: usize = STRETCH_SIZE * MOST_STRETCHES;

// The value that stands for a byte that is not stored.
pub const NOT_STORED: u32 = 256;

// The plan that a refusal is about.
#[derive(Clone, Copy, Debug, PartialEq, Eq)]
pub enum Side {
    Old,
    New,
}

// The number of stretches, and whether the runs are the same.
#[derive(Clone, Copy, Debug, PartialEq, Eq)]
pub struct Found {
    pub count: usize,
    pub same_run: bool,
}

// A refusal, and the plan that it is about, if it is about one.
#[derive(Clone, Copy, Debug, PartialEq, Eq)]
pub struct Refused {
    pub which: Option<Side>,
    pub refusal: Refusal,
}

// Lists what differs from an address on, up to the end of the sources.
fn collect_blocks(old: &[u8], new: &[u8], sources: Sources, first: u64, listing: &mut Listing)
    requires { Sides old.now new.now first sources × Collected listing.old (image_of old.now) (image_of new.now) first }
    ensures { Collected listing.new (image_of old.now) (image_of new.now) sources.end }
{
    let mut at = first;
    while at < sources.end {
        if listing.count > MOST_STRETCHES {
            return;
        }
        let block = block_at(old, new, sources, at);
        listing.add_block(at, block);
        at = block.end;
    }
}

// The stretches in which two plans differ; where they are too many, the first of them, and one more than there may be.
fn collect(old: FirstStretch, new: FirstStretch, listing: &mut Listing)
    requires { listing.old.count ≡ 0 }
    ensures { Collected listing.new (image_of old.entry.plan.now) (image_of new.entry.plan.now) addresses }
{
    let mut at: u64 = 0;
    while at < ADDRESSES {
        if listing.count > MOST_STRETCHES {
            return;
        }
        let sources = sources_at(old, new, at);
        collect_blocks(old.plan, new.plan, sources, at, listing);
        at = sources.end;
    }
}

// Two plans that were read, of so many pieces.
fn compare_pieces(
    old: &[u8],
    new: &[u8],
    old_count: u32,
    new_count: u32,
    output: &mut [u8],
) -> Result<Found, Refused>
    requires { Comparable old.now old_count × Comparable new.now new_count × (stretch_size * most_stretches ≤ length output.old) }
    ensures result_value { outcome_is result ≡ outcome_of (compared_below addresses (read_as old.now) (read_as new.now)) }
    ensures output_after { output.new ≡ output_after (compared_below addresses (read_as old.now) (read_as new.now)) output.old }
{
    let old_stretch = stretch_of(old, old_count);
    let new_stretch = stretch_of(new, new_count);
    let mut listing = Listing::new();
    collect(old_stretch, new_stretch, &mut listing);
    if listing.count > MOST_STRETCHES {
        return Err(Refused {
            which: None,
            refusal: Cause::TooManyStretches.at(MOST_STRETCHES),
        });
    }
    listing.put(output);
    Ok(Found {
        count: listing.count,
        same_run: old_stretch.run == new_stretch.run,
    })
}

// The addresses at which the stretches from index 0 of two plans differ. Each stretch is four Little Endian words at the output's front:
// first and last address, old and new byte at the first; 256 where it is not stored. The output behind them is left as it was.
pub fn compare(old: &[u8], new: &[u8], output: &mut [u8]) -> Result<Found, Refused>
    ensures result_value { outcome_is result ≡ outcome_of (compared (length output.old) old.now new.now) }
    ensures output_after { output.new ≡ output_after (compared (length output.old) old.now new.now) output.old }
{
    if output.len() < OUTPUT_SIZE {
        return Err(Refused {
            which: None,
            refusal: Cause::OutputTooSmall.at(0),
        });
    }
    let old_count = read(old).map_err(|refusal| Refused {
        which: Some(Side::Old),
        refusal,
    })?;
    let new_count = read(new).map_err(|refusal| Refused {
        which: Some(Side::New),
        refusal,
    })?;
    compare_pieces(old, new, old_count, new_count, output)
}
