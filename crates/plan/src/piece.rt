// One piece of a plan.
ghost use Rattle.std.specs.Prelude.{◌≡◌, ◌%◌, eqb};
ghost use Rattle.plan.specs.Plan.{Judged as JudgedAs, judge_run, judge_fill, judge_data, judge_put, judge_kind, piece_at};
ghost use Rattle.plan.specs.Code.{unit_of, put_length, fill_length, row_is, judged_is, row_of, extent_then, judge_extent};

use outcome::refusal::Cause;
use words::read::le_word_at;

// The medium whose lengths are asked for: multiples of 32, of 4, or any.
#[derive(Clone, Copy, Debug, PartialEq, Eq)]
pub enum Target {
    Aplx,
    Srom,
    Any,
}

// A put's data stands in the plan, or in the image that was read back, from an offset on.
#[derive(Clone, Copy, Debug, PartialEq, Eq)]
pub enum Piece {
    Put {
        address: u32,
        from: usize,
        length: usize,
    },
    Fill {
        address: u32,
        length: usize,
        word: u32,
    },
    Run {
        address: u32,
    },
}

// The length of a put; 0 for another piece.
pub fn put_length(piece: Piece) -> usize
    ensures { result ≡ put_length piece }
{
    match piece {
        Piece::Put { length, .. } => length,
        Piece::Fill { .. } | Piece::Run { .. } => 0,
    }
}

// The length of a fill; 0 for another piece.
pub fn fill_length(piece: Piece) -> usize
    ensures { result ≡ fill_length piece }
{
    match piece {
        Piece::Fill { length, .. } => length,
        Piece::Put { .. } | Piece::Run { .. } => 0,
    }
}

// Whether a length is a multiple of the medium's unit.
fn is_whole(target: Target, length: u32) -> bool
    ensures { result ≡ eqb (length % unit_of target) 0 }
{
    match target {
        Target::Aplx => length % 32 == 0,
        Target::Srom => length % 4 == 0,
        Target::Any => true,
    }
}

// The tests that a put and a fill have in common, before their other ones.
#[tactic(auto, unfolding(crate::specs::Code::judge_extent))]
fn judge_extent(address: u32, length: u32) -> Result<(), Cause>
    ensures { (rest : JudgedAs) → extent_then result rest ≡ judge_extent address length rest }
{
    if length == 0 {
        return Err(Cause::ZeroLength);
    }
    if length > 65536 {
        return Err(Cause::PlanMalformed);
    }
    if address % 4 != 0 {
        return Err(Cause::NotAligned);
    }
    Ok(())
}

#[tactic(auto, unfolding(crate::specs::Plan::judge_run))]
fn judge_run(address: u32, length: u32, last: u32) -> Result<Piece, Cause>
    ensures { judged_is result ≡ judge_run address length last }
{
    if length != 0 || last != 0 {
        return Err(Cause::PlanMalformed);
    }
    if address % 4 == 2 {
        return Err(Cause::RunNotLegal);
    }
    Ok(Piece::Run { address })
}

#[tactic(auto, unfolding(crate::specs::Plan::judge_fill, crate::specs::Code::judge_extent))]
fn judge_fill(target: Target, address: u32, length: u32, word: u32) -> Result<Piece, Cause>
    ensures { judged_is result ≡ judge_fill (unit_of target) address length word }
{
    judge_extent(address, length)?;
    if !is_whole(target, length) {
        return Err(Cause::LengthNotExpressible);
    }
    Ok(Piece::Fill {
        address,
        length: length as usize,
        word,
    })
}

#[tactic(auto, unfolding(crate::specs::Plan::judge_put, crate::specs::Plan::judge_data, crate::specs::Code::judge_extent))]
fn judge_put(
    plan: &[u8],
    target: Target,
    address: u32,
    length: u32,
    offset: u32,
) -> Result<Piece, Cause>
    ensures { judged_is result ≡ judge_put (unit_of target) plan.now address length offset }
{
    judge_extent(address, length)?;
    let size = le_word_at(plan, 12) as u64;
    if size < offset as u64 + length as u64 {
        return Err(Cause::CutShort);
    }
    if !is_whole(target, length) {
        return Err(Cause::LengthNotExpressible);
    }
    Ok(Piece::Put {
        address,
        from: le_word_at(plan, 8) as usize + offset as usize,
        length: length as usize,
    })
}

#[tactic(auto, unfolding(crate::specs::Plan::judge_kind))]
fn judge_kind(
    plan: &[u8],
    target: Target,
    kind: u32,
    address: u32,
    length: u32,
    last: u32,
) -> Result<Piece, Cause>
    ensures { judged_is result ≡ judge_kind (unit_of target) plan.now kind address length last }
{
    match kind {
        1 => judge_put(plan, target, address, length, last),
        2 => judge_fill(target, address, length, last),
        3 => judge_run(address, length, last),
        _ => Err(Cause::PlanMalformed),
    }
}

// The piece with an index, by the plan's own table.
#[tactic(auto, unfolding(crate::specs::Plan::piece_at, crate::specs::Plan::judge_at))]
pub fn piece_at(plan: &[u8], target: Target, index: u32) -> Result<Piece, Cause>
    ensures { judged_is result ≡ piece_at (unit_of target) plan.now index }
{
    let at = le_word_at(plan, 4) as usize + 16 * (index as usize);
    let w = words::four::read(plan, at);
    judge_kind(plan, target, w.first, w.second, w.third, w.fourth)
}

// The piece with an index of a plan that was read; a run at 0 where its tests refuse it.
pub fn accepted_at(plan: &[u8], target: Target, index: u32) -> Piece
    ensures { row_is result ≡ row_of (piece_at (unit_of target) plan.now index) }
{
    piece_at(plan, target, index).unwrap_or(Piece::Run { address: 0 })
}
