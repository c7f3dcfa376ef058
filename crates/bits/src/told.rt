ghost use Rattle.bits.specs.Told.{told};
ghost use Rattle.std.specs.Prelude.{◌≡◌};

/// Where a refusal points.
#[derive(Clone, Copy, Debug, PartialEq, Eq, Hash)]
pub enum Place {
    /// A bit of a file, counted from 0.
    AtBit(usize),
    /// An event of a recording, counted from 0.
    AtEvent(usize),
    /// An entry of a station's line-up, both counted from 0.
    AtEntry { station: usize, entry: usize },
    /// How much room would have been enough.
    Needs(usize),
}

/// What a refusal tells: its number and its place.
#[derive(Clone, Copy, Debug, PartialEq, Eq, Hash)]
pub struct Told {
    // No enum of its own: the numbers are what a report prints, and their cases are those of the faults.
    pub number: usize,
    pub place: Place,
}

impl Told {
    /// That number at that place.
    pub fn new(number: usize, place: Place) -> Told
        ensures { result ≡ told number place }
    {
        Told { number, place }
    }
}
