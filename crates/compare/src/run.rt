// The stretch from index 0 of a plan that was read, and its run.
ghost use Rattle.std.specs.Prelude.{◌≡◌, true, ℕ, ◌<◌, length, get_or};
ghost use Rattle.plan.specs.Plan.{read_plan};
ghost use Rattle.plan.specs.Packed.{plan_pieces, Accepted};
ghost use Rattle.plan.specs.Meaning.{stretch};
ghost use Rattle.compare.specs.Reading.{run_of};
ghost use Rattle.compare.specs.Code.{was_read, run_is};

use plan::piece::{Piece, Target, accepted_at};

// The plan, the number of the stretch's pieces, and the address of the run that ends it, if one does.
#[derive(Clone, Copy, Debug, PartialEq, Eq)]
pub(crate) struct FirstStretch<'a> {
    pub plan: &'a [u8],
    pub count: u32,
    pub run: Option<u32>,
    pub ghost bytes: { (i : ℕ) → get_or plan.now i 0 < 256 },
    pub ghost accepted: { was_read (read_plan 1 plan.now) ≡ true },
    pub ghost whole: { count ≡ length (stretch (plan_pieces 1 plan.now)) },
}

// The stretch from index 0 of an accepted plan of so many pieces.
pub(crate) fn stretch_of<'a>(plan: &'a [u8], count: u32) -> FirstStretch<'a>
    requires { Accepted 1 plan.now × (count ≡ length (plan_pieces 1 plan.now)) }
    ensures same_plan { result.plan.now ≡ plan.now }
    ensures run_value { run_is result.run ≡ run_of (plan_pieces 1 plan.now) }
{
    for i in 0..count {
        if let Piece::Run { address } = accepted_at(plan, Target::Any, i) {
            return FirstStretch {
                plan,
                count: i + 1,
                run: Some(address),
            };
        }
    }
    FirstStretch {
        plan,
        count,
        run: None,
    }
}
