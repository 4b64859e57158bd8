// Why something is refused, and where.
ghost use Rattle.std.specs.Prelude.{◌≡◌};
ghost use Rattle.outcome.specs.Refusal.{number_of};

// The cause of a refusal, with its number. docs/REFUSALS.md says of each what to look at.
#[derive(Clone, Copy, Debug, PartialEq, Eq)]
pub enum Cause {
    MapNotSound = 1,
    CutShort = 2,
    NotAligned = 3,
    NotPermitted = 4,
    ZeroLength = 5,
    EntryNotReadable = 6,
    NoStop = 7,
    MeetsHeader = 8,
    RunNotLegal = 9,
    OutputTooSmall = 10,
    PlanMalformed = 11,
    LengthNotExpressible = 12,
    SromTooLong = 13,
    TooManyStretches = 18,
    PastLastAddress = 19,
    NoPiece = 20,
    TooManyPieces = 21,
    LengthNotPackable = 22,
    DataOutside = 23,
    ImageTooShort = 24,
    OutsideLimits = 25,
    NoStart = 26,
    NoSuchBlock = 27,
    WrongSize = 28,
    NotOpen = 29,
    NotAsPlanned = 30,
}

// A refusal: its cause, and the place of the cause.
#[derive(Clone, Copy, Debug, PartialEq, Eq)]
pub struct Refusal {
    pub cause: Cause,
    pub place: usize,
}

impl Cause {
    pub fn number(self) -> u32
        ensures { result ≡ number_of self }
    {
        self as u32
    }

    // The refusal for this cause at a place.
    pub fn at(self, place: usize) -> Refusal
        ensures { result ≡ record { cause = self; place = place } }
    {
        Refusal { cause: self, place }
    }
}
