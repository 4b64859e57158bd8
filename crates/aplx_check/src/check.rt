// The check of an image against a plan.
ghost use Rattle.std.specs.Prelude.{◌≡◌, suc, ◌*◌, ◌<◌};
ghost use Rattle.plan.specs.Plan.{read_plan};
ghost use Rattle.plan.specs.Packed.{plan_pieces};
ghost use Rattle.plan.specs.Code.Packer.{ReadAs};
ghost use Rattle.aplx_check.specs.Check.{refuses, check_entries, check_pieces, check};
ghost use Rattle.aplx_check.specs.Code.{checked_is};

use crate::due::{Due, after_part, is_due, part_length};
use crate::end::{first_end, whole_entries};
use outcome::refusal::{Cause, Refusal};
use plan::piece::{Target, accepted_at, fill_length, put_length};

// An image is refused at an entry.
fn refused_at(entry: u32) -> Result<(), Refusal>
    ensures { checked_is result ≡ refuses 30 entry }
{
    Err(Cause::NotAsPlanned.at(entry as usize))
}

// The entries before the end entry, against the pieces of a plan that was read.
fn check_entries(plan: &[u8], image: &[u8], count: u32, end: u32) -> Result<(), Refusal>
    requires { ReadAs (read_plan 1 plan.now) count × (end < 256) }
    ensures { checked_is result ≡ check_entries image.now (16 * suc end) end 0 (plan_pieces 1 plan.now) }
{
    let behind = 16 * (end as usize + 1);
    let mut due = Due { index: 0, done: 0 };
    for entry in 0..end {
        if due.index == count {
            return refused_at(entry);
        }
        let piece = accepted_at(plan, Target::Any, due.index);
        if !is_due(plan, image, behind, entry, piece, due.done) {
            return refused_at(entry);
        }
        let length = part_length(image, entry, piece) as usize;
        due = after_part(due, length, put_length(piece) + fill_length(piece));
    }
    if due.index == count {
        return Ok(());
    }
    refused_at(end)
}

// The image, against the pieces of a plan that was read.
fn check_pieces(plan: &[u8], image: &[u8], count: u32) -> Result<(), Refusal>
    requires { ReadAs (read_plan 1 plan.now) count }
    ensures { checked_is result ≡ check_pieces image.now (plan_pieces 1 plan.now) }
{
    let whole = whole_entries(image);
    match first_end(image, whole) {
        Some(end) => check_entries(plan, image, count, end),
        None => refused_at(whole),
    }
}

// Whether an APLX image, header at offset 0, is written by the rules for a plan. A refusal of the plan has a piece's index, and one of the
// image that of an entry.
pub fn check(plan: &[u8], image: &[u8]) -> Result<(), Refusal>
    ensures { checked_is result ≡ check plan.now image.now }
{
    let pieces = plan::read::read(plan, Target::Any)?;
    check_pieces(plan, image, pieces.count as u32)
}
