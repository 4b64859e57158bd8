// The two loaders.
ghost use Rattle.std.specs.Prelude.{◌≡◌};
ghost use Rattle.outcome_numbers.specs.Numbers.{first};
ghost use Rattle.reidhintsje.specs.Calls.{srom_call, aplx_call};

// Loads a serial ROM from an offset on.
#[unsafe(no_mangle)]
pub extern "C" fn reidhintsje_srom_load(
    map: &[u8],
    memory: &mut [u8],
    rom: &[u8],
    offset: usize,
    outcome: &mut [u64; 8],
) -> u32
    ensures value { result ≡ first outcome.new }
    ensures outcome_after { outcome.new ≡ (srom_call map.now rom.now offset memory.old).numbers }
    ensures memory_after { memory.new ≡ (srom_call map.now rom.now offset memory.old).memory }
{
    reidhintsje::load::reidhintsje_srom_load(map, memory, rom, offset, outcome)
}

// Loads the APLX image whose header stands at an address.
#[unsafe(no_mangle)]
pub extern "C" fn reidhintsje_aplx_load(
    map: &[u8],
    memory: &mut [u8],
    header: u32,
    outcome: &mut [u64; 8],
) -> u32
    ensures value { result ≡ first outcome.new }
    ensures outcome_after { outcome.new ≡ (aplx_call map.now memory.old header).numbers }
    ensures memory_after { memory.new ≡ (aplx_call map.now memory.old header).memory }
{
    reidhintsje::load::reidhintsje_aplx_load(map, memory, header, outcome)
}
