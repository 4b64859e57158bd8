// The packer.
ghost use Rattle.std.specs.Prelude.{◌≡◌, length};
ghost use Rattle.plan.specs.Plan.{read_plan};
ghost use Rattle.plan.specs.Packed.{output_after, outcome_of, written_length};
ghost use Rattle.plan.specs.Code.Packer.{outcome_is};
ghost use Rattle.srom_pack.specs.Image.{srom_image, pack_srom};

use outcome::refusal::Refusal;
use plan::pack::{Packer, ReadSource, Reader};
use plan::piece::{Target, accepted_at, fill_length, put_length};
use plan::read::Pieces;

// A plan is packed as its serial ROM image.
struct Srom;

impl Reader for Srom {
    ghost reads = { read_plan 4 };
}

impl Packer for Srom {
    ghost image = { srom_image };

    fn read(plan: &[u8]) -> Result<Pieces, Refusal> {
        plan::read::read(plan, Target::Srom)
    }

    fn size(read: &ReadSource<'_, Srom>) -> usize {
        2 + 7 * read.pieces.count + read.pieces.puts + read.pieces.fills
    }

    #[tactic(auto, unfolding(words::specs::Store::store_if_fits))]
    fn write(read: &ReadSource<'_, Srom>, output: &mut [u8]) {
        if output.len() < Self::size(read) {
            return;
        }
        output[0] = 0x55;
        let plan = read.source;
        let count = read.pieces.count as u32;
        let mut at: usize = 1;
        for i in 0..count {
            let piece = accepted_at(plan, Target::Srom, i);
            crate::block::write_block(plan, piece, output, at);
            at += 7 + put_length(piece) + fill_length(piece);
        }
        output[at] = 0xff;
    }
}

// Packs a plan as a serial ROM image at the output's front. A refused plan changes no byte of the output.
#[tactic(auto, unfolding(crate::specs::Image::pack_srom))]
pub fn pack(plan: &[u8], output: &mut [u8]) -> Result<usize, Refusal>
    ensures result_value { outcome_is result ≡ outcome_of (pack_srom plan.now (length output.old)) }
    ensures output_after { output.new ≡ output_after (pack_srom plan.now (length output.old)) output.old }
{
    plan::pack::pack::<Srom>(plan, output)
}

// The length of a plan's image, or 0 where the plan is refused.
pub fn image_length(plan: &[u8]) -> usize
    ensures { result ≡ written_length srom_image (read_plan 4 plan.now) }
{
    plan::pack::image_length::<Srom>(plan)
}
