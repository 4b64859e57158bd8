// The two loaders.
ghost use Rattle.std.specs.Prelude.{◌≡◌};
ghost use Rattle.outcome_numbers.specs.Numbers.{first};
ghost use Rattle.reidhintsje.specs.Calls.{srom_call, aplx_call};

use map_table::table::map_of;
use outcome_numbers::numbers::{load_parts, put};

// Loads a serial ROM from an offset on.
pub fn reidhintsje_srom_load(
    map: &[u8],
    memory: &mut [u8],
    rom: &[u8],
    offset: usize,
    outcome: &mut [u64; 8],
) -> u32
    ensures value { result ≡ first outcome.new }
    ensures outcome_after { outcome.new ≡ (srom_call map.now rom.now offset memory.old).numbers }
    ensures memory_after { memory.new ≡ (srom_call map.now rom.now offset memory.old).memory }
{
    let regions = map_of(map);
    let answer = srom::load::load(regions, memory, rom, offset);
    put(outcome, load_parts(answer))
}

// Loads the APLX image whose header stands at an address.
pub fn reidhintsje_aplx_load(
    map: &[u8],
    memory: &mut [u8],
    header: u32,
    outcome: &mut [u64; 8],
) -> u32
    ensures value { result ≡ first outcome.new }
    ensures outcome_after { outcome.new ≡ (aplx_call map.now memory.old header).numbers }
    ensures memory_after { memory.new ≡ (aplx_call map.now memory.old header).memory }
{
    let regions = map_of(map);
    let answer = aplx::load::load(regions, memory, header);
    put(outcome, load_parts(answer))
}
