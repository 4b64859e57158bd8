// A map as a table of 132 bytes.
ghost use Rattle.std.specs.Prelude.{◌≡◌, ◌≤◌};
ghost use Rattle.std.proofs.Math.ListN as list;
ghost use Rattle.words.specs.Store.{store_if_fits};
ghost use Rattle.memory_map.specs.Map.{verdict_of};
ghost use Rattle.map_table.specs.Table.{rights_of, region_of, region_in, rights_known, regular, map_of, bit_of, rights_number, region_bytes, table_of, addition, table_after};

use memory_map::map::Map;
use memory_region::region::{Region, Rights};
use outcome::refusal::{Cause, Refusal};
use words::read::le_word_at;

// The length of a table, and the most regions in it.
const TABLE: usize = 132;

const MOST_REGIONS: usize = 8;

// All rights: a number over this has a bit without a meaning.
const ALL_RIGHTS: u32 = 7;

// 1 read, 2 write, 4 run.
#[tactic(auto, unfolding(crate::specs::Table::rights_of))]
fn rights_of(bits: u32) -> Rights
    ensures { result ≡ rights_of bits }
{
    Rights {
        read: bits % 2 == 1,
        write: bits / 2 % 2 == 1,
        run: bits / 4 % 2 == 1,
    }
}

#[tactic(auto, unfolding(crate::specs::Table::region_of))]
fn region_of(base: u32, length: u32, place: u32, bits: u32) -> Region
    ensures { result ≡ region_of base length place bits }
{
    let rights = rights_of(bits);
    Region {
        base,
        length,
        place,
        rights,
    }
}

// The region whose four words stand at an offset.
#[tactic(auto, unfolding(crate::specs::Table::region_in))]
fn region_in(table: &[u8], at: usize) -> Region
    ensures { result ≡ region_in table.now at }
{
    let w = words::four::read(table, at);
    region_of(w.first, w.second, w.third, w.fourth)
}

// Whether so many regions from the first on have rights that are known.
fn rights_known(table: &[u8], count: usize) -> bool
    requires { count ≤ 8 }
    ensures { result ≡ rights_known count table.now 4 }
{
    for i in 0..count {
        if le_word_at(table, 16 + 16 * i) > ALL_RIGHTS {
            return false;
        }
    }
    true
}

// Whether a table has its length, no more regions than it can hold, and known rights in those in use.
#[tactic(auto, unfolding(crate::specs::Table::regular))]
fn regular(table: &[u8]) -> bool
    ensures { result ≡ regular table.now }
{
    let count = le_word_at(table, 0) as usize;
    table.len() == TABLE && count <= MOST_REGIONS && rights_known(table, count)
}

// The map that a table is; another table is no sound map.
pub fn map_of(table: &[u8]) -> Map
    ensures { result ≡ map_of table.now }
{
    let mut map = Map::empty();
    if !regular(table) {
        map.count = MOST_REGIONS + 1;
        return map;
    }
    map.count = le_word_at(table, 0) as usize;
    for (i, region) in map.regions.iter_mut().enumerate() {
        *region = region_in(table, 4 + 16 * i);
    }
    map
}

fn bit_of(given: bool, bit: u32) -> u32
    ensures { result ≡ bit_of given bit }
{
    if given { bit } else { 0 }
}

#[tactic(auto, unfolding(crate::specs::Table::rights_number))]
fn number_of(rights: Rights) -> u32
    ensures { result ≡ rights_number rights }
{
    bit_of(rights.read, 1) + bit_of(rights.write, 2) + bit_of(rights.run, 4)
}

// The four words of a region at an offset.
#[tactic(auto, unfolding(crate::specs::Table::region_bytes))]
fn put_region(table: &mut [u8], at: usize, region: Region)
    ensures { table.new ≡ store_if_fits table.old at (region_bytes region) }
{
    let rights = number_of(region.rights);
    words::four::put(table, at, region.base, region.length, region.place, rights);
}

// The table of a map: the count, and the eight regions.
fn put_table(table: &mut [u8], map: Map)
    requires { (list.length table.old ≡ 132) × (map.count ≤ 8) }
    ensures { table.new ≡ table_of map }
{
    words::put::le_word(table, 0, map.count as u32);
    for (i, region) in map.regions.iter().enumerate() {
        put_region(table, 4 + 16 * i, *region);
    }
}

// Adds a region, and writes the table of the map that has it. A refused addition leaves the table as it was.
#[tactic(auto, unfolding(crate::specs::Table::addition, crate::specs::Table::table_after))]
pub fn add(table: &mut [u8], base: u32, length: u32, place: u32, rights: u32) -> Result<(), Refusal>
    ensures result_value { verdict_of result ≡ (addition table.old base length place rights).verdict }
    ensures table_after { table.new ≡ table_after table.old (addition table.old base length place rights) }
{
    if rights > ALL_RIGHTS {
        return Err(Cause::MapNotSound.at(0));
    }
    let addition = map_of(table).add(region_of(base, length, place, rights));
    addition.verdict?;
    put_table(table, addition.map);
    Ok(())
}
