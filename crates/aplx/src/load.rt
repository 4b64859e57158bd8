// The load of an APLX image.
ghost use Rattle.std.specs.Prelude.{◌≡◌};
ghost use Rattle.outcome.specs.Outcome.{outcome_of};
ghost use Rattle.aplx.specs.Load.{aplx_load};

use memory_map::map::Map;
use outcome::answer::Load;
use outcome::refusal::Refusal;

// Loads the image whose header is at an address, up to the first run or other stop. A refused load changes no byte.
#[tactic(auto, unfolding(crate::specs::Load::aplx_load))]
pub fn load(map: Map, memory: &mut [u8], header: u32) -> Result<Load, Refusal>
    ensures { record { outcome = outcome_of result; memory = memory.new } ≡ aplx_load map memory.old header }
{
    let load = aplx_look::look::look(map, memory, header)?;
    crate::perform::perform_all(map, memory, header, load.taken);
    Ok(load)
}
