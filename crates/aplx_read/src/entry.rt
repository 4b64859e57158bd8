// One entry of an image.
ghost use Rattle.std.specs.Prelude.{◌≡◌};
ghost use Rattle.plan.specs.Code.{row_is};
ghost use Rattle.aplx_read.specs.ReadBack.{Entry, judge_exec, judge_range, judge_copy, judge_words, entry_at};
ghost use Rattle.aplx_read.specs.Code.{entry_is, range_then, row_of};

use outcome::refusal::Cause;
use plan::piece::Piece;

#[tactic(auto, unfolding(crate::specs::ReadBack::judge_exec))]
fn judge_exec(address: u32) -> Result<Option<Piece>, Cause>
    ensures { entry_is result ≡ judge_exec address }
{
    if address % 4 == 2 {
        return Err(Cause::RunNotLegal);
    }
    Ok(Some(Piece::Run { address }))
}

// The tests of a length and a destination.
#[tactic(auto, unfolding(crate::specs::ReadBack::judge_range))]
fn judge_range(address: u32, length: u32) -> Result<(), Cause>
    ensures { (rest : Entry) → range_then result rest ≡ judge_range address length rest }
{
    if length == 0 {
        return Err(Cause::ZeroLength);
    }
    if length % 32 != 0 || length > 65536 {
        return Err(Cause::LengthNotPackable);
    }
    if address % 4 != 0 {
        return Err(Cause::NotAligned);
    }
    Ok(())
}

// The data of an RCOPY.
#[tactic(auto, unfolding(crate::specs::ReadBack::judge_copy))]
fn judge_copy(
    image: &[u8],
    index: u32,
    address: u32,
    offset: u32,
    length: u32,
) -> Result<Option<Piece>, Cause>
    ensures { entry_is result ≡ judge_copy image.now index address offset length }
{
    if offset % 4 != 0 {
        return Err(Cause::NotAligned);
    }
    let from = (16 * (index as u64) + offset as u64) % 4294967296;
    let end = from + length as u64;
    if (image.len() as u64) < end {
        return Err(Cause::DataOutside);
    }
    Ok(Some(Piece::Put {
        address,
        from: from as usize,
        length: length as usize,
    }))
}

// The entry with an index that has these four words: the end word, an RCOPY of 2, a FILL of 3 or an EXEC of 4. The 65th piece is one too many.
#[tactic(auto, unfolding(crate::specs::ReadBack::judge_words, crate::specs::ReadBack::judge_range))]
fn judge_words(
    image: &[u8],
    index: u32,
    command: u32,
    x: u32,
    y: u32,
    z: u32,
) -> Result<Option<Piece>, Cause>
    ensures { entry_is result ≡ judge_words image.now index command x y z }
{
    match command {
        0xffffffff => Ok(None),
        2 | 3 | 4 if index >= 64 => Err(Cause::TooManyPieces),
        2 => {
            judge_range(x, z)?;
            judge_copy(image, index, x, y, z)
        }
        3 => {
            judge_range(x, y)?;
            Ok(Some(Piece::Fill {
                address: x,
                length: y as usize,
                word: z,
            }))
        }
        4 => judge_exec(x),
        _ => Err(Cause::NoPiece),
    }
}

// The entry with an index: a piece, whose data stands in the image if it is a put, or none at the end.
#[tactic(auto, unfolding(crate::specs::ReadBack::entry_at))]
pub(crate) fn entry_at(image: &[u8], index: u32) -> Result<Option<Piece>, Cause>
    ensures { entry_is result ≡ entry_at image.now index }
{
    let at = 16 * (index as usize);
    if image.len() < at + 16 {
        return Err(Cause::CutShort);
    }
    let w = words::four::read(image, at);
    judge_words(image, index, w.first, w.second, w.third, w.fourth)
}

// The piece with an index of an image that was read; a run at 0 where the entry is none.
pub(crate) fn accepted_at(image: &[u8], index: u32) -> Piece
    ensures { row_is result ≡ row_of (entry_at image.now index) }
{
    match entry_at(image, index) {
        Ok(Some(piece)) => piece,
        Ok(None) | Err(_) => Piece::Run { address: 0 },
    }
}
