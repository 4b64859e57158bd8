// The load of a serial ROM.
ghost use Rattle.std.specs.Prelude.{◌≡◌};
ghost use Rattle.outcome.specs.Outcome.{outcome_of};
ghost use Rattle.srom.specs.Load.{srom_load};

use crate::rom::Rom;
use memory_map::map::Map;
use outcome::answer::Load;
use outcome::refusal::{Cause, Refusal};

// Loads the ROM from an offset on, which is 0 at power-up, up to the first run or the end. A refused load changes no byte.
#[tactic(auto, unfolding(crate::specs::Load::srom_load, crate::specs::Load::srom_look, crate::specs::Load::look))]
pub fn load(map: Map, memory: &mut [u8], rom: &[u8], offset: usize) -> Result<Load, Refusal>
    ensures { record { outcome = outcome_of result; memory = memory.new } ≡ srom_load map rom.now offset memory.old }
{
    if !map.sound(memory.len()) {
        return Err(Cause::MapNotSound.at(0));
    }
    if rom.len() > 16777216 {
        return Err(Cause::SromTooLong.at(0));
    }
    let rom = Rom { map, bytes: rom };
    let load = crate::walk::walk_blocks(&rom, offset)?;
    crate::store::store_blocks(&rom, memory, offset);
    Ok(load)
}
