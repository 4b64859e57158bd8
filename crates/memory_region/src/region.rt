// One region of memory.
ghost use Rattle.std.specs.Prelude.{◌≡◌, not};
ghost use Rattle.words.specs.Range.{meets};
ghost use Rattle.memory_region.specs.Region.Follows.{follows};
ghost use Rattle.memory_region.specs.Region.{allows, keeps_rules, clear, ends_inside, permits, place_in};

#[derive(Debug, Clone, Copy, PartialEq, Eq)]
pub struct Rights {
    pub read: bool,
    pub write: bool,
    pub run: bool,
}

#[derive(Debug, Clone, Copy, PartialEq, Eq)]
pub enum Right {
    Read,
    Write,
    Run,
}

// `length` addresses from `base` on, which are the buffer's bytes from `place` on.
#[derive(Debug, Clone, Copy, PartialEq, Eq)]
pub struct Region {
    pub base: u32,
    pub length: u32,
    pub place: u32,
    pub rights: Rights,
}

// Whether n numbers from a on and k numbers from b on share none. The likely cases come first; sums of two words do not wrap.
fn apart(a: u32, n: u32, b: u32, k: u32) -> bool
    ensures { result ≡ not (meets a n b k) }
{
    a as u64 + n as u64 <= b as u64 || b as u64 + k as u64 <= a as u64 || n == 0 || k == 0
}

impl Region {
    pub fn allows(self, right: Right) -> bool
        ensures { result ≡ allows self right }
    {
        let rights = self.rights;
        match right {
            Right::Read => rights.read,
            Right::Write => rights.write,
            Right::Run => rights.run,
        }
    }

    // Whether it keeps the rules for one region.
    pub fn keeps_rules(self) -> bool
        ensures { result ≡ keeps_rules self }
    {
        let base = self.base;
        let length = self.length;
        base % 4 == 0
            && length % 4 == 0
            && 4 <= length
            && length <= 16777216
            && base as u64 + length as u64 <= 4294967280
    }

    // Whether it keeps the rules, begins at or behind an address and a place, and ends inside a buffer of so many bytes.
    pub fn follows(self, size: usize, address: u64, place: u64) -> bool
        ensures { result ≡ follows size address place self }
    {
        address <= self.base as u64
            && place <= self.place as u64
            && self.ends_inside(size)
            && self.keeps_rules()
    }

    // Whether it shares no address and no buffer byte with another.
    pub fn clear_of(self, other: Region) -> bool
        ensures { result ≡ clear self other }
    {
        apart(self.base, self.length, other.base, other.length)
            && apart(self.place, self.length, other.place, other.length)
    }

    // Whether it ends inside a buffer of so many bytes.
    pub fn ends_inside(self, size: usize) -> bool
        ensures { result ≡ ends_inside size self }
    {
        self.place as usize + self.length as usize <= size
    }

    // The buffer place of an address that is not below the base.
    pub fn place_of(self, address: u32) -> usize
        ensures { result ≡ place_in self address }
    {
        if address < self.base {
            return self.place as usize;
        }
        self.place as usize + (address - self.base) as usize
    }

    // Whether the range is not empty, lies wholly inside, and the right is given.
    pub fn permits(self, right: Right, address: u32, length: u64) -> bool
        ensures { result ≡ permits self right address length }
    {
        let start = self.base as u64;
        let end = start + self.length as u64;
        let first = address as u64;
        length != 0 && start <= first && first <= end && length <= end - first && self.allows(right)
    }
}
