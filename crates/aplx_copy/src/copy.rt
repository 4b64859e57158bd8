// Copies within memory, as if word by word, lowest first. Ranges that do not fit leave memory as it was.
ghost use Rattle.std.specs.Prelude.{◌≡◌, ◌+◌, ◌*◌, ◌≤◌, length, take, drop};
ghost use Rattle.words.specs.Store.{store};
ghost use Rattle.aplx_copy.specs.Copy.{copy_words, copied, copied_if_fits, Ahead};

// N bytes, read whole and then stored.
fn copy_block<const N: usize>(memory: &mut [u8], to: usize, from: usize)
    requires { (to + N ≤ length memory.old) × (from + N ≤ length memory.old) }
    ensures { memory.new ≡ store memory.old to (take N (drop from memory.old)) }
{
    let mut block = [0; N];
    block.copy_from_slice(&memory[from..from + N]);
    memory[to..to + N].copy_from_slice(&block);
}

// `size` bytes from one place to another, word by word, lowest first.
fn copy_words(memory: &mut [u8], to: usize, from: usize, size: usize)
    requires { (to + size ≤ length memory.old) × (from + size ≤ length memory.old) }
    ensures { memory.new ≡ copied size to from memory.old }
{
    for i in 0..size / 4 {
        copy_block::<4>(memory, to + i * 4, from + i * 4);
    }
}

// So many groups of eight words, where no word of a group is written over before it is read.
fn copy_groups(memory: &mut [u8], to: usize, from: usize, count: usize)
    requires { (to + 32 * count ≤ length memory.old) × (from + 32 * count ≤ length memory.old) × Ahead from to 32 }
    ensures { memory.new ≡ copy_words (8 * count) to from memory.old }
{
    for i in 0..count {
        copy_block::<32>(memory, to + i * 32, from + i * 32);
    }
}

// `size` bytes: groups, then the words that are left.
fn copy_far(memory: &mut [u8], to: usize, from: usize, size: usize)
    requires { (to + size ≤ length memory.old) × (from + size ≤ length memory.old) × Ahead from to 32 }
    ensures { memory.new ≡ copied size to from memory.old }
{
    let count = size / 32;
    let done = count * 32;
    copy_groups(memory, to, from, count);
    copy_words(memory, to + done, from + done, size - done);
}

// `size` bytes from one place to another. The words of a group are copied together where that gives the same.
fn copy_inside(memory: &mut [u8], to: usize, from: usize, size: usize)
    requires { (to + size ≤ length memory.old) × (from + size ≤ length memory.old) }
    ensures { memory.new ≡ copied size to from memory.old }
{
    if from < to && to - from < 32 {
        copy_words(memory, to, from, size);
    } else {
        copy_far(memory, to, from, size);
    }
}

// The whole words of `size` bytes from one place to another, where both ranges lie in memory.
pub fn copy(memory: &mut [u8], to: usize, from: usize, size: usize)
    ensures { memory.new ≡ copied_if_fits size to from memory.old }
{
    if words::range::fits(to, size, memory.len()) && words::range::fits(from, size, memory.len()) {
        copy_inside(memory, to, from, size);
    }
}
