// Packing: what is read as pieces is written as an image of them, or a plan, where it fits.
ghost use Rattle.std.specs.Prelude.{◌≡◌, ◌<◌, ℕ, List, Ok, length, get_or};
ghost use Rattle.words.specs.Store.{store_if_fits};
ghost use Rattle.plan.specs.declared.read.Pieces.{Pieces as PiecesOf};
ghost use Rattle.plan.specs.Plan.{Piece as PieceOf, Read};
ghost use Rattle.plan.specs.Packed.{packed_as, output_after, outcome_of, pieces_in, written_length};
ghost use Rattle.plan.specs.Code as reader;
ghost use Rattle.plan.specs.Code.Packer.{Counted, outcome_is};

use crate::read::Pieces;
use outcome::refusal::{Cause, Refusal};
use std::marker::PhantomData;

// What a source is read as.
pub trait Reader {
    ghost reads: { List ℕ → Read };
}

// A source that was read, with what was counted of its pieces.
#[derive(Drop)]
pub struct ReadSource<'a, R: Reader> {
    pub source: &'a [u8],
    pub pieces: Pieces,
    pub reader: PhantomData<R>,
    pub ghost bytes: { (i : ℕ) → get_or source.now i 0 < 256 },
    pub ghost counted: { Counted (R.reads source.now) pieces.count pieces.puts pieces.fills },
}

// What differs between the packers: how the source is read, how long the image is, and how it is written.
pub trait Packer: Reader {
    // the image of pieces
    ghost image: { List PieceOf → List ℕ };

    fn read(source: &[u8]) -> Result<Pieces, Refusal>
        ensures value { reader.outcome_is result ≡ reader.outcome_of (Self.reads source.now) }
        ensures counted { (p : PiecesOf) → result ≡ Ok p → Counted (Self.reads source.now) p.count p.puts p.fills };

    // The length of the image of whatever is counted so.
    fn size(read: &ReadSource<'_, Self>) -> usize
        ensures { (t : Read) → Counted t read.now.pieces.count read.now.pieces.puts read.now.pieces.fills → result ≡ length (image (pieces_in t)) };

    // The image, at the output's front, where it fits.
    fn write(read: &ReadSource<'_, Self>, output: &mut [u8])
        ensures { output.new ≡ store_if_fits output.old 0 (image (pieces_in (Self.reads read.now.source.now))) };
}

// Writes the image at the output's front. What is refused changes no byte of the output.
#[tactic(auto, unfolding(words::specs::Store::store_if_fits))]
pub fn pack<P: Packer>(source: &[u8], output: &mut [u8]) -> Result<usize, Refusal>
    ensures result_value { outcome_is result ≡ outcome_of (packed_as P.image (P.reads source.now) (length output.old)) }
    ensures output_after { output.new ≡ output_after (packed_as P.image (P.reads source.now) (length output.old)) output.old }
{
    let pieces = P::read(source)?;
    let read = ReadSource::<P> {
        source,
        pieces,
        reader: PhantomData,
    };
    let size = P::size(&read);
    if output.len() < size {
        return Err(Cause::OutputTooSmall.at(pieces.count));
    }
    P::write(&read, output);
    Ok(size)
}

// The length of the image, or 0 where the source is refused.
pub fn image_length<P: Packer>(source: &[u8]) -> usize
    ensures { result ≡ written_length P.image (P.reads source.now) }
{
    match P::read(source) {
        Ok(pieces) => P::size(&ReadSource::<P> {
            source,
            pieces,
            reader: PhantomData,
        }),
        Err(_) => 0,
    }
}
