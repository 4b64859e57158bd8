// The packer.
ghost use Rattle.std.specs.Prelude.{◌≡◌, length};
ghost use Rattle.plan.specs.Plan.{read_plan};
ghost use Rattle.plan.specs.Packed.{output_after, outcome_of, written_length};
ghost use Rattle.plan.specs.Code.Packer.{outcome_is};
ghost use Rattle.aplx_pack.specs.Image.{aplx_image, pack_aplx};

use outcome::refusal::Refusal;
use plan::pack::{Packer, ReadSource, Reader};
use plan::piece::{Target, accepted_at, put_length};
use plan::read::Pieces;

// A plan is packed as its APLX image.
struct Aplx;

impl Reader for Aplx {
    ghost reads = { read_plan 32 };
}

impl Packer for Aplx {
    ghost image = { aplx_image };

    fn read(plan: &[u8]) -> Result<Pieces, Refusal> {
        plan::read::read(plan, Target::Aplx)
    }

    fn size(read: &ReadSource<'_, Aplx>) -> usize {
        16 * (read.pieces.count + 1) + read.pieces.puts
    }

    #[tactic(auto, unfolding(words::specs::Store::store_if_fits))]
    fn write(read: &ReadSource<'_, Aplx>, output: &mut [u8]) {
        if output.len() < Self::size(read) {
            return;
        }
        let plan = read.source;
        let count = read.pieces.count as u32;
        let mut place: usize = 16 * (count as usize + 1);
        for i in 0..count {
            let piece = accepted_at(plan, Target::Aplx, i);
            crate::entry::write_piece(plan, piece, output, 16 * (i as usize), place);
            place += put_length(piece);
        }
        words::four::put(output, 16 * (count as usize), 0xffffffff, 0, 0, 0);
    }
}

// Packs a plan as an APLX image at the output's front. A refused plan changes no byte of the output.
#[tactic(auto, unfolding(crate::specs::Image::pack_aplx))]
pub fn pack(plan: &[u8], output: &mut [u8]) -> Result<usize, Refusal>
    ensures result_value { outcome_is result ≡ outcome_of (pack_aplx plan.now (length output.old)) }
    ensures output_after { output.new ≡ output_after (pack_aplx plan.now (length output.old)) output.old }
{
    plan::pack::pack::<Aplx>(plan, output)
}

// The length of a plan's image, or 0 where the plan is refused.
pub fn image_length(plan: &[u8]) -> usize
    ensures { result ≡ written_length aplx_image (read_plan 32 plan.now) }
{
    plan::pack::image_length::<Aplx>(plan)
}
