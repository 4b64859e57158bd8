// The whole plan.
ghost use Rattle.std.specs.Prelude.{◌≡◌, ◌+◌, ◌≤◌, length};
ghost use Rattle.plan.specs.Plan.{data_at, data_length, read_pieces, judge_header, read_plan};
ghost use Rattle.plan.specs.Code.{unit_of, header_is, outcome_of, outcome_is};

use crate::piece::{Target, fill_length, piece_at, put_length};
use outcome::refusal::{Cause, Refusal};

// The number of pieces, the sum of the put lengths and that of the fill lengths.
#[derive(Clone, Copy, Debug, PartialEq, Eq)]
pub struct Pieces {
    pub count: usize,
    pub puts: usize,
    pub fills: usize,
}

// The pieces, one after the other.
fn read_pieces(plan: &[u8], target: Target, count: u32) -> Result<Pieces, Refusal>
    requires { (count ≤ 64) × (data_at plan.now + data_length plan.now ≤ length plan.now) }
    ensures { outcome_is result ≡ outcome_of (read_pieces (unit_of target) plan.now count 0) }
{
    let mut puts: usize = 0;
    let mut fills: usize = 0;
    for i in 0..count {
        match piece_at(plan, target, i) {
            Ok(piece) => {
                puts += put_length(piece);
                fills += fill_length(piece);
            }
            Err(cause) => return Err(cause.at(i as usize)),
        }
    }
    Ok(Pieces {
        count: count as usize,
        puts,
        fills,
    })
}

// Tests the header of a plan, and gives the number of pieces.
#[tactic(auto, unfolding(crate::specs::Plan::judge_header))]
pub fn judge_header(plan: &[u8]) -> Result<u32, Cause>
    ensures { header_is result ≡ judge_header plan.now }
{
    if plan.len() < 16 {
        return Err(Cause::CutShort);
    }
    let words = words::four::read(plan, 0);
    let count = words.first;
    if count > 64 {
        return Err(Cause::PlanMalformed);
    }
    let size = plan.len();
    if size < words.second as usize + 16 * (count as usize) {
        return Err(Cause::CutShort);
    }
    if size < words.third as usize + words.fourth as usize {
        return Err(Cause::CutShort);
    }
    Ok(count)
}

// Reads a plan: its header, and the tests of every piece.
pub fn read(plan: &[u8], target: Target) -> Result<Pieces, Refusal>
    ensures { outcome_is result ≡ outcome_of (read_plan (unit_of target) plan.now) }
{
    match judge_header(plan) {
        Ok(count) => read_pieces(plan, target, count),
        Err(cause) => Err(cause.at(0)),
    }
}
