// The text for two plans.
ghost use Rattle.std.specs.Prelude.{◌≡◌, ◌*◌, length};
ghost use Rattle.file_bytes.specs.Counts.{IsPrefixLen};
ghost use Rattle.words.specs.Store.{store};
ghost use Rattle.outcome.specs.Refusal.{number_of};
ghost use Rattle.plan.specs.Plan.{refused};
ghost use Rattle.compare.specs.Reading.{addresses, read_compared};
ghost use Rattle.compare.specs.Compare.{refuses, most_stretches, stretch_size, compared_below, compared};
ghost use Rattle.compare.specs.Code.{which_is, outcome_is};
ghost use Rattle.comparison.specs.Lines.{compared_files, printed_for, refused_plan};
ghost use Rattle.comparison.specs.Code.{Prints, Bounded, shown_of};

use crate::lines::{LINE_SIZE, put_lines};
use compare::compare::{Found, MOST_STRETCHES, OUTPUT_SIZE, Refused, Side};
use outcome::refusal::{Cause, Refusal};

// The bytes that a plan has at most.
pub(crate) const LONGEST_PLAN: usize = 32768;

// The bytes of the longest text: as many lines as there can be, and `other run`.
pub const LONGEST_TEXT: usize = LINE_SIZE * MOST_STRETCHES + 10;

// The length of the text, and the plan that is refused, if one is.
#[derive(Clone, Copy, Debug, PartialEq, Eq)]
pub struct Printed {
    pub size: usize,
    pub refused: Option<Side>,
}

// The line of a refusal.
fn refuse(which: Option<Side>, refusal: Refusal, text: &mut [u8; LONGEST_TEXT]) -> Printed
    ensures { Prints (refuses (which_is which) (number_of refusal.cause) refusal.place) text.old result text.new }
{
    let number = refusal.cause.number();
    Printed {
        size: text::refusal::put(text, number as u64, refusal.place as u64),
        refused: which,
    }
}

// The lines of what was found, or the line of the refusal.
fn show(answer: Result<Found, Refused>, stretches: &[u8], text: &mut [u8; LONGEST_TEXT]) -> Printed
    requires { Bounded (outcome_is answer) }
    ensures { Prints (shown_of (outcome_is answer) stretches.now) text.old result text.new }
{
    match answer {
        Ok(found) => Printed {
            size: put_lines(text, stretches, found.count, found.same_run),
            refused: None,
        },
        Err(refused) => refuse(refused.which, refused.refusal, text),
    }
}

// Two plans of any length.
fn compare_plans(old: &[u8], new: &[u8], text: &mut [u8; LONGEST_TEXT]) -> Printed
    ensures { Prints (compared (stretch_size * most_stretches) old.now new.now) text.old result text.new }
{
    let mut stretches = [0u8; OUTPUT_SIZE];
    let answer = compare::compare::compare(old, new, &mut stretches);
    show(answer, &stretches, text)
}

// An old plan, where the new one is too long.
fn refuse_new(old: &[u8], text: &mut [u8; LONGEST_TEXT]) -> Printed
    ensures { Prints (compared_below addresses (read_compared old.now) (refused 11 0)) text.old result text.new }
{
    match compare::reading::read(old) {
        Ok(_) => refuse(Some(Side::New), Cause::PlanMalformed.at(0), text),
        Err(refusal) => refuse(Some(Side::Old), refusal, text),
    }
}

// What is printed for two plans, at the text's front. The text behind it is left as it was.
pub fn compare_text(old: &[u8], new: &[u8], text: &mut [u8; LONGEST_TEXT]) -> Printed
    ensures size_value { result.size ≡ length (printed_for old.now new.now) }
    ensures text_after { text.new ≡ store text.old 0 (printed_for old.now new.now) }
    ensures refused_value { which_is result.refused ≡ refused_plan (compared_files old.now new.now) }
    ensures prefix_len { IsPrefixLen result.size text.new }
{
    if old.len() > LONGEST_PLAN {
        return refuse(Some(Side::Old), Cause::PlanMalformed.at(0), text);
    }
    if new.len() > LONGEST_PLAN {
        return refuse_new(old, text);
    }
    compare_plans(old, new, text)
}
