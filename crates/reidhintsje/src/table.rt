// The calls of a map, which is a table of 132 bytes.
ghost use Rattle.std.specs.Prelude.{◌≡◌};
ghost use Rattle.map_table.specs.Table.{addition, table_after};
ghost use Rattle.reidhintsje.specs.Calls.{verdict_number, sound_call};

use map_table::table::{add, map_of};
use outcome::refusal::Cause;

// Adds a region, and writes the table of the map that has it. A refused addition leaves the table as it was.
pub fn reidhintsje_map_add(map: &mut [u8], base: u32, length: u32, place: u32, rights: u32) -> u32
    ensures value { result ≡ verdict_number (addition map.old base length place rights).verdict }
    ensures map_after { map.new ≡ table_after map.old (addition map.old base length place rights) }
{
    match add(map, base, length, place, rights) {
        Ok(()) => 0,
        Err(refusal) => refusal.cause.number(),
    }
}

// Whether a map is sound for a memory of so many bytes: 0, or the refusal's number.
pub fn reidhintsje_map_sound(map: &[u8], memory_length: usize) -> u32
    ensures { result ≡ sound_call map.now memory_length }
{
    let regions = map_of(map);
    if regions.sound(memory_length) {
        0
    } else {
        Cause::MapNotSound.number()
    }
}
