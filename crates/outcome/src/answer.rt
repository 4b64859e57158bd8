// Stops, and what a load answers where it is not refused.

// The entry of a run, with the address as written: bit 0 is set in a Thumb entry.
#[derive(Clone, Copy, Debug, PartialEq, Eq)]
pub enum Entry {
    Arm(u32),
    Thumb(u32),
}

// Why a load stopped. A run has the address from which a next load goes on.
#[derive(Clone, Copy, Debug, PartialEq, Eq)]
pub enum Stop {
    End { place: usize },
    Unknown { command: u32, place: usize },
    Run { entry: Entry, resume: u32 },
}

// A load that was not refused: its stop, the entries or blocks before it, and the bytes stored.
#[derive(Clone, Copy, Debug, PartialEq, Eq)]
pub struct Load {
    pub stop: Stop,
    pub taken: usize,
    pub stored: u64,
}
