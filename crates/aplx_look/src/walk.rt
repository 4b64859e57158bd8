// The walk over the entries, to the stop. Nothing is stored.
ghost use Rattle.std.specs.Prelude.{◌≡◌, true, length};
ghost use Rattle.memory_map.specs.Map.{sound};
ghost use Rattle.memory_map.specs.Lookup.{lookup};
ghost use Rattle.aplx_look.specs.Walk.{walk};
ghost use Rattle.aplx_look.specs.Code.{walk_is};

use crate::board::Board;
use crate::judge::judge_entry;
use outcome::answer::Stop;
use outcome::refusal::{Cause, Refusal};

// The number of entries before the stop, and the stop. The place of a refusal is the entry at which the walk ended.
#[tactic(auto, unfolding(crate::specs::Walk::walk))]
pub(crate) fn walk_entries(board: &Board, header: u32) -> Result<(usize, Stop), Refusal>
    ensures { walk_is result ≡ walk (lookup board.now.map) board.now.memory.now header }
{
    let mut address = header;
    for i in 0..256 {
        match judge_entry(board, address, i) {
            Ok(None) => address += 16,
            Ok(Some(stop)) => return Ok((i, stop)),
            Err(cause) => return Err(cause.at(i)),
        }
    }
    Err(Cause::NoStop.at(256))
}
