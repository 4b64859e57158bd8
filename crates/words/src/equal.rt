// Whether two slices have the same bytes.
ghost use Rattle.std.specs.Prelude.{◌≡◌, ◌&&◌, ◌+◌, ◌≤◌, eqb, length, take, drop};
ghost use Rattle.words.specs.Equal.{same};

// Pairs of bytes that are compared at once.
const PAIRS: usize = 32;

// Whether one more pair of bytes is equal, and so were all before it. A function of its own: written out in the loop, it gets no vector
// instructions.
fn is_equal(all: bool, a: u8, b: u8) -> bool
    ensures { result ≡ (all && eqb a b) }
{
    if a != b {
        return false;
    }
    all
}

// Whether the next 32 pairs of bytes are equal. The loop has one exit, so that many pairs are compared at once.
fn equal_at_once(a: &[u8], b: &[u8], at: usize) -> bool
    requires { (at + 32 ≤ length a.now) × (at + 32 ≤ length b.now) }
    ensures { result ≡ same (take 32 (drop at a.now)) (take 32 (drop at b.now)) }
{
    let mut all = true;
    for k in 0..PAIRS {
        all = is_equal(all, a[at + k], b[at + k]);
    }
    all
}

// Whether all bytes are equal; slices of different lengths have not the same bytes. It stops at the first 32 pairs that are not all equal.
pub fn equal(a: &[u8], b: &[u8]) -> bool
    ensures { result ≡ same a.now b.now }
{
    let size = a.len();
    if size != b.len() {
        return false;
    }
    let groups = size / PAIRS;
    for i in 0..groups {
        if !equal_at_once(a, b, PAIRS * i) {
            return false;
        }
    }
    for k in PAIRS * groups..size {
        if a[k] != b[k] {
            return false;
        }
    }
    true
}
