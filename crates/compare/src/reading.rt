// Which plans can be compared.
ghost use Rattle.std.specs.Prelude.{◌≡◌, ◌≤◌};
ghost use Rattle.plan.specs.Code.{row_is, judged_is};
ghost use Rattle.plan.specs.Plan.{good};
ghost use Rattle.compare.specs.Reading.{judge_end, judge_last, compared_at, compared_pieces, read_compared};
ghost use Rattle.compare.specs.Code.{reading_is, reading_of};

use outcome::refusal::{Cause, Refusal};
use plan::piece::{Piece, Target, piece_at};
use plan::read::judge_header;

// The number of addresses.
pub(crate) const ADDRESSES: u64 = 4294967296;

// A piece of so many bytes that begins at an address: refused where it ends past the last one.
fn judge_end(address: u32, length: usize, piece: Piece) -> Result<Piece, Cause>
    ensures { judged_is result ≡ judge_end address length (row_is piece) }
{
    if length as u64 > ADDRESSES - address as u64 {
        return Err(Cause::PastLastAddress);
    }
    Ok(piece)
}

// The last test of a piece.
fn judge_last(piece: Piece) -> Result<Piece, Cause>
    ensures { judged_is result ≡ judge_last (good (row_is piece)) }
{
    match piece {
        Piece::Put {
            address,
            length,
            ..
        }
        | Piece::Fill {
            address,
            length,
            ..
        } => judge_end(address, length, piece),
        Piece::Run { .. } => Ok(piece),
    }
}

// The piece with an index.
#[tactic(auto, unfolding(crate::specs::Reading::compared_at))]
fn compared_at(plan: &[u8], index: u32) -> Result<Piece, Cause>
    ensures { judged_is result ≡ compared_at plan.now index }
{
    judge_last(piece_at(plan, Target::Any, index)?)
}

// The pieces, one after the other.
fn read_pieces(plan: &[u8], count: u32) -> Result<u32, Refusal>
    requires { count ≤ 64 }
    ensures { reading_is result ≡ reading_of (compared_pieces plan.now count 0) }
{
    for i in 0..count {
        match compared_at(plan, i) {
            Ok(_) => {}
            Err(cause) => return Err(cause.at(i as usize)),
        }
    }
    Ok(count)
}

// Reads a plan that is to be compared: its header, and the tests of every piece. Answers how many pieces it has.
pub fn read(plan: &[u8]) -> Result<u32, Refusal>
    ensures { reading_is result ≡ reading_of (read_compared plan.now) }
{
    match judge_header(plan) {
        Ok(count) => read_pieces(plan, count),
        Err(cause) => Err(cause.at(0)),
    }
}
