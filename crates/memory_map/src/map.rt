// Up to eight regions over one lent buffer.
ghost use Rattle.std.specs.Prelude.{◌≡◌, if◌then◌else◌};
ghost use Rattle.std.specs.Option.{option_map_or};
ghost use Rattle.words.specs.Choice.{every};
ghost use Rattle.memory_region.specs.Region.{clear, ends_inside};
ghost use Rattle.memory_map.specs.Map.Ascending.{ascending};
ghost use Rattle.memory_map.specs.Map.{regions_of, all_keep_rules, empty_map, well_formed, sound, refused, add, addition_of};
ghost use Rattle.memory_region.specs.declared.region.Right.TheVariants as right;
ghost use Rattle.outcome.specs.Outcome.{kind_of, address_of};
ghost use Rattle.memory_map.specs.Lookup.{found, place_of, lookup, found_of};
ghost use Rattle.memory_map.specs.Entry.{entry as entry_of, refused as not_legal, run_entry, run_entry_of};

use memory_region::region::{Region, Right, Rights};
use outcome::answer::Entry;
use outcome::refusal::{Cause, Refusal};

// Regions 0 to `count` - 1 are in use.
#[derive(Clone, Copy)]
pub struct Map {
    pub regions: [Region; 8],
    pub count: usize,
}

// What an addition hands back: the map with the region more, or, refused, the map as it was.
#[derive(Clone, Copy)]
pub struct Addition {
    pub map: Map,
    pub verdict: Result<(), Refusal>,
}

// The place of a range that was found, or 0 where it was not.
pub fn place(found: Result<usize, Cause>) -> usize
    ensures { result ≡ place_of (found_of found) }
{
    found.unwrap_or(0)
}

// Whether each region keeps its own rules, begins where the one before it ends or behind that, in addresses and in places, and ends inside
// a buffer of so many bytes.
fn ascend(regions: &[Region], size: usize) -> bool
    ensures { result ≡ ascending size 0 0 regions.now }
{
    let mut address: u64 = 0;
    let mut place: u64 = 0;
    for region in regions {
        if !region.follows(size, address, place) {
            return false;
        }
        address = region.base as u64 + region.length as u64;
        place = region.place as u64 + region.length as u64;
    }
    true
}

// Whether a region is clear of all of these.
fn is_clear_of(region: Region, others: &[Region]) -> bool
    ensures { result ≡ every (clear region) others.now }
{
    for other in others {
        if !region.clear_of(*other) {
            return false;
        }
    }
    true
}

// Whether each region keeps its own rules, and is clear of the later ones.
fn all_clear(regions: &[Region]) -> bool
    ensures { result ≡ all_keep_rules regions.now }
{
    for (i, region) in regions.iter().enumerate() {
        if !region.keeps_rules() || !is_clear_of(*region, &regions[i + 1..]) {
            return false;
        }
    }
    true
}

// Whether every region ends inside a buffer of so many bytes.
fn all_end_inside(regions: &[Region], size: usize) -> bool
    ensures { result ≡ every (ends_inside size) regions.now }
{
    for region in regions {
        if !region.ends_inside(size) {
            return false;
        }
    }
    true
}

impl Map {
    pub fn empty() -> Map
        ensures { result ≡ empty_map }
    {
        let none = Rights {
            read: false,
            write: false,
            run: false,
        };
        let region = Region {
            base: 0,
            length: 0,
            place: 0,
            rights: none,
        };
        Map {
            regions: [region; 8],
            count: 0,
        }
    }

    // The regions in use.
    fn in_use(&self) -> &[Region]
        ensures { result.now ≡ regions_of self.now }
    {
        &self.regions[..self.count.min(8)]
    }

    // Whether the map keeps every rule that needs no buffer and, where the length of one is given, is sound for it. Regions that ascend are not
    // compared each with each.
    fn passes(self, buffer: Option<usize>) -> bool
        ensures { result ≡ option_map_or (sound self) buffer (well_formed self) }
    {
        let regions = self.in_use();
        if self.count > 8 {
            return false;
        }
        // regions of 32-bit numbers all end inside 2^33 bytes
        if ascend(regions, buffer.unwrap_or(8589934592)) {
            return true;
        }
        if !all_clear(regions) {
            return false;
        }
        match buffer {
            Some(size) => all_end_inside(regions, size),
            None => true,
        }
    }

    // Whether the map keeps every rule that needs no buffer.
    pub fn well_formed(self) -> bool
        ensures { result ≡ well_formed self }
    {
        self.passes(None)
    }

    // Whether the map is sound for a buffer of so many bytes.
    pub fn sound(self, size: usize) -> bool
        ensures { result ≡ sound self size }
    {
        self.passes(Some(size))
    }

    // The map with a region more, or, refused, the map as it was.
    pub fn add(mut self, region: Region) -> Addition
        ensures { addition_of result ≡ add self region }
    {
        let before = self;
        let refused = Addition {
            map: before,
            verdict: Err(Cause::MapNotSound.at(0)),
        };
        if self.count >= 8 {
            return refused;
        }
        self.regions[self.count] = region;
        self.count += 1;
        if self.well_formed() {
            return Addition {
                map: self,
                verdict: Ok(()),
            };
        }
        refused
    }

    // The buffer place of `length` addresses from `address` on, where one region permits them.
    pub fn lookup(self, right: Right, address: u32, length: u64) -> Result<usize, Cause>
        ensures { found_of result ≡ lookup self right address length }
    {
        for region in self.in_use() {
            if region.permits(right, address, length) {
                return Ok(region.place_of(address));
            }
        }
        Err(Cause::NotPermitted)
    }

    // A run entry, where the byte at its address may be run.
    fn permit_run(self, first: u32, entry: Entry) -> Result<Entry, Cause>
        ensures { run_entry_of result ≡ (if found (lookup self right.Run first 1) then entry_of (kind_of entry) (address_of entry) else not_legal 9) }
    {
        match self.lookup(Right::Run, first, 1) {
            Ok(_) => Ok(entry),
            Err(_) => Err(Cause::RunNotLegal),
        }
    }

    // The run entry at an address, where it is legal.
    pub fn run_entry(self, address: u32) -> Result<Entry, Cause>
        ensures { run_entry_of result ≡ run_entry (lookup self) address }
    {
        if address % 2 == 1 {
            self.permit_run(address - 1, Entry::Thumb(address))
        } else if address % 4 == 0 {
            self.permit_run(address, Entry::Arm(address))
        } else {
            Err(Cause::RunNotLegal)
        }
    }
}
