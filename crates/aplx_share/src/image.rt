// What is written of the image: the entries, and behind them the different contents.
ghost use Rattle.std.specs.Prelude.{◌≡◌, ◌+◌, ◌*◌, ◌≤◌, length};
ghost use Rattle.words.specs.Store.{store};
ghost use Rattle.plan.specs.Plan.{read_plan};
ghost use Rattle.plan.specs.Code.Packer.{ReadAs};
ghost use Rattle.plan.specs.Packed.{plan_pieces};
ghost use Rattle.aplx_share.specs.Contents.{contents, different, kept_contents, joined};
ghost use Rattle.aplx_share.specs.SharedImage.{shared_entries};
ghost use Rattle.aplx_share.specs.Collected.{contents_at, Located, PlacesOf};

use crate::contents::Content;
use plan::piece::{Target, accepted_at};

// The entries of a plan with so many pieces, and the end entry, at the output's front.
pub(crate) fn write_entries(plan: &[u8], pieces: u32, places: &[usize], output: &mut [u8])
    requires { ReadAs (read_plan 32 plan.now) pieces × PlacesOf (plan_pieces 32 plan.now) places.now × (pieces ≤ length places.now) × (16 * (pieces + 1) ≤ length output.old) }
    ensures { output.new ≡ store output.old 0 (shared_entries (kept_contents (plan_pieces 32 plan.now)) (plan_pieces 32 plan.now)) }
{
    for i in 0..pieces {
        let piece = accepted_at(plan, Target::Aplx, i);
        let offset = 16 * (pieces - i + 1) as usize + places[i as usize];
        aplx_pack::entry::write_entry(piece, offset as u32, output, 16 * (i as usize));
    }
    words::four::put(output, 16 * (pieces as usize), 0xffffffff, 0, 0, 0);
}

// Contents, one behind the other.
pub(crate) fn write_contents(plan: &[u8], contents: &[Content], output: &mut [u8], at: usize)
    requires { Located plan.now contents.now × (at + length (joined (contents_at plan.now contents.now)) ≤ length output.old) }
    ensures { output.new ≡ store output.old at (joined (contents_at plan.now contents.now)) }
{
    let mut place = at;
    for content in contents {
        words::put::bytes(output, place, content.bytes(plan));
        place += content.length;
    }
}
