// The different contents of a plan's puts.
ghost use Rattle.std.specs.Prelude.{◌≡◌, ◌+◌, ◌≤◌, length};
ghost use Rattle.plan.specs.Plan.{read_plan};
ghost use Rattle.plan.specs.Code.Packer.{ReadAs};
ghost use Rattle.plan.specs.Packed.{plan_pieces};
ghost use Rattle.aplx_share.specs.Contents.{place};
ghost use Rattle.aplx_share.specs.Collected.{Inside, Located, Collected, bytes_of, contents_at, used};

use plan::piece::{Piece, Target, accepted_at};

// The most pieces of a plan.
const PIECES: usize = 64;

// Where a content stands in the plan.
#[derive(Clone, Copy, Debug, PartialEq, Eq)]
pub(crate) struct Content {
    pub start: usize,
    pub length: usize,
}

// What is kept of the puts of a plan: where the first `count` contents stand, in the order of their first appearance; how many bytes they
// have in all; and for each piece how many of these stand before its own data.
#[derive(Clone, Copy)]
pub(crate) struct Kept {
    contents: [Content; PIECES],
    count: usize,
    pub size: usize,
    pub places: [usize; PIECES],
}

impl Content {
    pub(crate) fn bytes(self, plan: &[u8]) -> &[u8]
        requires { Inside plan.now self }
        ensures { result.now ≡ bytes_of plan.now self }
    {
        &plan[self.start..self.start + self.length]
    }
}

impl Kept {
    // The contents that are kept.
    pub(crate) fn contents(&self) -> &[Content]
        ensures { result.now ≡ used self.now }
    {
        &self.contents[..self.count.min(PIECES)]
    }
}

// How many bytes of these contents stand before the earliest that equals this one; all of them where none does.
fn place_of(plan: &[u8], contents: &[Content], content: &[u8]) -> usize
    requires { Located plan.now contents.now }
    ensures { result ≡ place (contents_at plan.now contents.now) content.now }
{
    let mut place: usize = 0;
    for kept in contents {
        if words::equal::equal(kept.bytes(plan), content) {
            return place;
        }
        place += kept.length;
    }
    place
}

// What is kept of a plan with so many pieces. Inline, so that it is made where it is used, and not copied.
#[inline(always)]
pub(crate) fn collect(plan: &[u8], pieces: u32) -> Kept
    requires { ReadAs (read_plan 32 plan.now) pieces }
    ensures { Collected plan.now (plan_pieces 32 plan.now) pieces result }
{
    let none = Content {
        start: 0,
        length: 0,
    };
    let mut kept = Kept {
        contents: [none; PIECES],
        count: 0,
        size: 0,
        places: [0; PIECES],
    };
    for i in 0..pieces {
        match accepted_at(plan, Target::Aplx, i) {
            Piece::Put { from, length, .. } => {
                let content = Content {
                    start: from,
                    length,
                };
                let place = place_of(plan, kept.contents(), content.bytes(plan));
                kept.places[i as usize] = place;
                if place == kept.size {
                    kept.contents[kept.count] = content;
                    kept.count += 1;
                    kept.size += length;
                }
            }
            Piece::Fill { .. } | Piece::Run { .. } => kept.places[i as usize] = 0,
        }
    }
    kept
}
