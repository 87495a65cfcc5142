// A call is refused by a number, at a place.
ghost use Rattle.std.specs.Prelude.{◌≡◌};
ghost use Rattle.cells.specs.Refusals.{number_of_refusal};

// The refusals have these numbers. specs/Refusals.antt names the same numbers for the definitions.
#[derive(Clone, Copy, Debug, PartialEq, Eq)]
pub enum Refusal {
    BadTable = 1,
    TornSheet = 2,
    Oversize = 3,
    NoWidth = 4,
    NoEntry = 5,
    OddWidth = 6,
    NoLowering = 7,
    PageFull = 9,
    BadPack = 13,
    TypeDiffers = 17,
}

impl From<Refusal> for u64 {
    ghost from_gives = { λ r n. n ≡ number_of_refusal r };

    fn from(refusal: Refusal) -> u64 {
        refusal as u64
    }
}

// The place is a cell, an instruction's number from 1 and 0 before the body, or how much is needed.
#[derive(Clone, Copy, Debug, PartialEq, Eq)]
pub struct Refused {
    pub refusal: Refusal,
    pub place: u64,
}
