// Pairs of bytes, one of each plan: how many in a row are equal, or are not.
ghost use Rattle.std.specs.Prelude.{◌≡◌, true, ℕ, ◌+◌, ◌^◌, ◌≤◌, ◌<◌, eqb};
ghost use Rattle.compare.specs.Code.Pairs.{Pair, PairsBelow};

// Pairs of bytes that are compared at once.
pub(crate) const PAIRS: usize = 64;

// Whether one more pair of bytes is equal, or is not, as asked, and so were all before it. A function of its own: written out in the loop,
// it gets no vector instructions.
fn is_alike(all: bool, old: u8, new: u8, same: bool) -> bool
    ensures { result ≡ true → (all ≡ true) × (eqb old new ≡ same) }
{
    if (old == new) != same {
        return false;
    }
    all
}

// Whether 64 pairs of bytes, from the one with index `at` on, are all equal, or all not, as asked. The loop has one exit, so that many
// pairs are compared at once.
fn all_alike<F: Fn(usize) -> u8, G: Fn(usize) -> u8>(
    old: &F,
    new: &G,
    at: usize,
    same: bool,
) -> bool
    requires fits { at + 64 < 2 ^ 64 }
    requires callable { (k : ℕ) → at ≤ k → k < at + 64 → F.pre old.now k × G.pre new.now k }
    ensures { result ≡ true → (k : ℕ) → at ≤ k → k < at + 64 → Pair (F.post old.now) (G.post new.now) same k }
{
    let mut all = true;
    for k in at..at + PAIRS {
        all = is_alike(all, old(k), new(k), same);
    }
    all
}

// How many pairs of bytes, from the first on, are equal, or are not, as asked. Byte k of each plan is given.
pub(crate) fn alike<F: Fn(usize) -> u8, G: Fn(usize) -> u8>(
    old: F,
    new: G,
    size: usize,
    same: bool,
) -> usize
    requires { (k : ℕ) → k < size → F.pre old k × G.pre new k }
    ensures upper_bound { result ≤ size }
    ensures pairs { PairsBelow (F.post old) (G.post new) same result }
{
    let mut k: usize = 0;
    while size - k >= PAIRS {
        if !all_alike(&old, &new, k, same) {
            break;
        }
        k += PAIRS;
    }
    for j in k..size {
        if (old(j) == new(j)) != same {
            return j;
        }
    }
    size
}
