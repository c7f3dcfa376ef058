ghost use Rattle.bits.specs.Widths.{bits_of};
ghost use Rattle.std.specs.Prelude.{◌≡◌, ◌≤◌};

/// How many bits a field has: the widths that occur in a file, and the single filling bit.
#[derive(Clone, Copy, Debug, PartialEq, Eq, Hash)]
pub enum Width {
    One = 1,
    Three = 3,
    Four = 4,
    Nine = 9,
    Ten = 10,
    Eleven = 11,
    Twelve = 12,
}

impl Width {
    /// The width as a number.
    pub fn bits(self) -> usize
        ensures value { result ≡ bits_of self }
        ensures narrow { result ≤ 12 }
    {
        self as usize
    }
}
