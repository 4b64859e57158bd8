// Where the parts of a receiver stand in its bytes. Numbers are Little Endian.

// All bytes.
pub const RECEIVER: usize = 1544;

// The number of blocks, the full size of a block, the ID of the open block, and its own size: two bytes each.
pub(crate) const COUNT: usize = 0;

pub(crate) const SIZE: usize = 2;

pub(crate) const OPEN_BLOCK: usize = 4;

pub(crate) const OPEN_SIZE: usize = 6;

// A byte for each block that may be done.
pub(crate) const DONE: usize = 8;

// A byte for each word of the open block that may have come.
pub(crate) const MARKS: usize = 264;

// The words of the open block, four bytes each.
pub(crate) const WORDS: usize = 520;

// The flags of either kind, and the words.
pub(crate) const PLACES: usize = 256;
