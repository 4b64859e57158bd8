// The plan of an image.
ghost use Rattle.std.specs.Prelude.{◌≡◌, ◌+◌, ◌≤◌, ◌<◌, length};
ghost use Rattle.plan.specs.Packed.{output_after, outcome_of, written_length};
ghost use Rattle.plan.specs.Code.{put_length, piece_is};
ghost use Rattle.plan.specs.Code.Packer.{Writable, outcome_is};
ghost use Rattle.aplx_read.specs.PlanBytes.{plan_bytes};
ghost use Rattle.aplx_read.specs.ReadBack.{read_image, read_back};
ghost use Rattle.aplx_read.specs.Code.{with_row};

use outcome::refusal::Refusal;
use plan::pack::{Packer, ReadSource, Reader};
use plan::piece::{Piece, put_length};
use plan::read::Pieces;

// The row of a piece of the image, and its data from an offset on behind the data's start.
fn write_row(image: &[u8], piece: Piece, output: &mut [u8], at: usize, start: usize, offset: usize)
    requires { Writable 32 image.now piece × (at + 16 ≤ start) × (start + offset < 4294967296) × (start + offset + put_length piece ≤ length output.old) }
    ensures { output.new ≡ with_row output.old (piece_is image.now piece) at start offset }
{
    match piece {
        Piece::Put {
            address,
            from,
            length,
        } => {
            words::four::put(output, at, 1, address, length as u32, offset as u32);
            words::put::bytes(output, start + offset, &image[from..from + length]);
        }
        Piece::Fill {
            address,
            length,
            word,
        } => words::four::put(output, at, 2, address, length as u32, word),
        Piece::Run { address } => words::four::put(output, at, 3, address, 0, 0),
    }
}

// An image is packed as the plan of its pieces.
struct PlanOfImage;

impl Reader for PlanOfImage {
    ghost reads = { read_image };
}

impl Packer for PlanOfImage {
    ghost image = { plan_bytes };

    fn read(image: &[u8]) -> Result<Pieces, Refusal> {
        crate::image::read(image)
    }

    fn size(read: &ReadSource<'_, PlanOfImage>) -> usize {
        16 * (read.pieces.count + 1) + read.pieces.puts
    }

    #[tactic(auto, unfolding(words::specs::Store::store_if_fits))]
    fn write(read: &ReadSource<'_, PlanOfImage>, output: &mut [u8]) {
        if output.len() < Self::size(read) {
            return;
        }
        let image = read.source;
        let count = read.pieces.count as u32;
        let start: usize = 16 * (count as usize + 1);
        words::four::put(output, 0, count, 16, start as u32, read.pieces.puts as u32);
        let mut offset: usize = 0;
        for i in 0..count {
            let piece = crate::entry::accepted_at(image, i);
            write_row(image, piece, output, 16 * (i as usize + 1), start, offset);
            offset += put_length(piece);
        }
    }
}

// Writes the plan of an APLX image, header at offset 0, at the output's front. A refused image changes no byte of the output.
#[tactic(auto, unfolding(crate::specs::ReadBack::read_back))]
pub fn read_back(image: &[u8], output: &mut [u8]) -> Result<usize, Refusal>
    ensures result_value { outcome_is result ≡ outcome_of (read_back image.now (length output.old)) }
    ensures output_after { output.new ≡ output_after (read_back image.now (length output.old)) output.old }
{
    plan::pack::pack::<PlanOfImage>(image, output)
}

// The length of an image's plan, or 0 where the image is refused.
pub fn plan_length(image: &[u8]) -> usize
    ensures { result ≡ written_length plan_bytes (read_image image.now) }
{
    plan::pack::image_length::<PlanOfImage>(image)
}
