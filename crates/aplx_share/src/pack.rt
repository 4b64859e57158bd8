// The packer.
ghost use Rattle.std.specs.Prelude.{◌≡◌, length};
ghost use Rattle.plan.specs.Plan.{read_plan};
ghost use Rattle.plan.specs.Packed.{output_after, outcome_of, written_length};
ghost use Rattle.plan.specs.Code.Packer.{outcome_is};
ghost use Rattle.aplx_share.specs.SharedImage.{shared_image, pack_shared};

use crate::contents::collect;
use crate::image::{write_contents, write_entries};
use outcome::refusal::{Cause, Refusal};
use plan::piece::Target;
use plan::read::read;

// The length of a plan's image, or 0 where the plan is refused.
pub fn image_length(plan: &[u8]) -> usize
    ensures { result ≡ written_length shared_image (read_plan 32 plan.now) }
{
    match read(plan, Target::Aplx) {
        Ok(pieces) => 16 * (pieces.count + 1) + collect(plan, pieces.count as u32).size,
        Err(_) => 0,
    }
}

// Packs a plan as an APLX image that keeps one copy of equal put data, at the output's front. A refused plan changes no byte of the output.
// No contents are compared where not even the entries fit.
pub fn pack(plan: &[u8], output: &mut [u8]) -> Result<usize, Refusal>
    ensures result_value { outcome_is result ≡ outcome_of (pack_shared plan.now (length output.old)) }
    ensures output_after { output.new ≡ output_after (pack_shared plan.now (length output.old)) output.old }
{
    let pieces = read(plan, Target::Aplx)?;
    let too_small = Err(Cause::OutputTooSmall.at(pieces.count));
    let front = 16 * (pieces.count + 1);
    if output.len() < front {
        return too_small;
    }
    let count = pieces.count as u32;
    let kept = collect(plan, count);
    let size = front + kept.size;
    if output.len() < size {
        return too_small;
    }
    write_entries(plan, count, &kept.places, output);
    write_contents(plan, kept.contents(), output, front);
    Ok(size)
}
