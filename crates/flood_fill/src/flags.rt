// Flags in a row: each a bool, or a byte.
ghost use Rattle.std.specs.Prelude.{◌≡◌, Bool, true, not, eqb, ◌≤◌, length, map, get_or, position};
ghost use Rattle.flood_fill.specs.Receive.{missing_in, lowest_in};

// A flag, as it stands in memory.
pub trait Flag {
    ghost reads: { Self → Bool };

    fn is_set(&self) -> bool
        ensures { result ≡ reads self.now };
}

impl Flag for bool {
    ghost reads = { λ flag. flag };

    fn is_set(&self) -> bool {
        *self
    }
}

// A byte is a flag that is set unless it is 0.
impl Flag for u8 {
    ghost reads = { λ byte. not (eqb byte 0) };

    fn is_set(&self) -> bool {
        *self != 0
    }
}

// The flag at a place. Past the end it counts as set.
pub fn is_set<F: Flag>(flags: &[F], at: usize) -> bool
    ensures { result ≡ get_or (map F.reads flags.now) at true }
{
    flags.get(at).is_none_or(|flag| flag.is_set())
}

// The number of flags that are not set.
pub fn missing<F: Flag>(flags: &[F]) -> usize
    ensures number { result ≡ missing_in (map F.reads flags.now) }
    ensures at_most { result ≤ length flags.now }
{
    let mut number: usize = 0;
    for flag in flags {
        if !flag.is_set() {
            number += 1;
        }
    }
    number
}

// The place of the first of them.
fn first_missing<F: Flag>(flags: &[F]) -> Option<usize>
    ensures { result ≡ position (λ flag. not (F.reads flag)) flags.now }
{
    flags.iter().position(|flag| !flag.is_set())
}

// The lowest of them, or the number of all flags.
pub fn lowest<F: Flag>(flags: &[F]) -> usize
    ensures place { result ≡ lowest_in (map F.reads flags.now) }
    ensures at_most { result ≤ length flags.now }
{
    first_missing(flags).unwrap_or(flags.len())
}
