// The calls of a map, which is a table of 132 bytes.
ghost use Rattle.std.specs.Prelude.{◌≡◌};
ghost use Rattle.map_table.specs.Table.{addition, table_after};
ghost use Rattle.reidhintsje.specs.Calls.{verdict_number, sound_call};

// Adds a region, and writes the table of the map that has it. A refused addition leaves the table as it was.
#[unsafe(no_mangle)]
pub extern "C" fn reidhintsje_map_add(
    map: &mut [u8],
    base: u32,
    length: u32,
    place: u32,
    rights: u32,
) -> u32
    ensures value { result ≡ verdict_number (addition map.old base length place rights).verdict }
    ensures map_after { map.new ≡ table_after map.old (addition map.old base length place rights) }
{
    reidhintsje::table::reidhintsje_map_add(map, base, length, place, rights)
}

// Whether a map is sound for a memory of so many bytes: 0, or the refusal's number.
#[unsafe(no_mangle)]
pub extern "C" fn reidhintsje_map_sound(map: &[u8], memory_length: usize) -> u32
    ensures { result ≡ sound_call map.now memory_length }
{
    reidhintsje::table::reidhintsje_map_sound(map, memory_length)
}
