// The numbers of two plans that were compared, in the layout of every call.
ghost use Rattle.std.specs.Prelude.{◌≡◌};
ghost use Rattle.compare.specs.Code.{which_is, outcome_is};
ghost use Rattle.outcome_numbers.specs.Numbers.{event_number, which_number, run_event, compared_parts};

use crate::numbers::{Event, Parts, count, needed, refused};
use compare::compare::{Found, OUTPUT_SIZE, Refused, Side};

// The plan that a refusal is about: 0 for neither.
fn which_number(which: Option<Side>) -> u64
    ensures { result ≡ which_number (which_is which) }
{
    match which {
        None => 0,
        Some(Side::Old) => 1,
        Some(Side::New) => 2,
    }
}

fn run_event(same: bool) -> Event
    ensures { event_number result ≡ run_event same }
{
    if same {
        Event::SameRun
    } else {
        Event::OtherRun
    }
}

// Two plans that were compared, whose stretches have so many bytes.
pub fn compared_parts(answer: Result<Found, Refused>, bytes: u64) -> Parts
    ensures { result ≡ compared_parts bytes (outcome_is answer) }
{
    match answer {
        Ok(found) => count(run_event(found.same_run), found.count as u64, bytes),
        Err(Refused { which, refusal }) => Parts {
            kind: which_number(which),
            ..refused(refusal, needed(refusal.cause, OUTPUT_SIZE as u64))
        },
    }
}
