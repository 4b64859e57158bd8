// What an APLX load answers, from its map, its memory and its header address.
ghost use Rattle.std.specs.Prelude.{◌≡◌};
ghost use Rattle.outcome.specs.Outcome.{outcome_of};
ghost use Rattle.aplx_look.specs.Look.{aplx_look, outcome_of_look};

use crate::board::Board;
use crate::header::check_header;
use crate::walk::walk_entries;
use memory_map::map::Map;
use outcome::answer::Load;
use outcome::refusal::{Cause, Refusal};

// The whole answer of a load. Nothing is stored.
#[tactic(auto, unfolding(crate::specs::Look::aplx_look, crate::specs::Look::look))]
pub fn look(map: Map, memory: &[u8], header: u32) -> Result<Load, Refusal>
    ensures { outcome_of result ≡ outcome_of_look (aplx_look map memory.now header) }
{
    if !map.sound(memory.len()) {
        return Err(Cause::MapNotSound.at(0));
    }
    if header % 4 != 0 {
        return Err(Cause::NotAligned.at(0));
    }
    let board = Board { map, memory };
    let (count, stop) = walk_entries(&board, header)?;
    check_header(&board, header, count, stop)
}
