ghost use Rattle.bits.specs.Told.{bit_told};
ghost use Rattle.std.specs.Prelude.{◌≡◌};

use crate::told::{Place, Told};

/// A fault of the bit layer.
#[derive(Clone, Copy, Debug, PartialEq, Eq, Hash)]
pub enum BitFault {
    /// The bytes end inside a field, whose first bit is told.
    Ends { bit: usize },
}

impl From<BitFault> for Told {
    ghost from_gives = { λ fault told. told ≡ bit_told fault };

    /// The fault's number and place.
    fn from(fault: BitFault) -> Told {
        match fault {
            BitFault::Ends { bit } => Told::new(1, Place::AtBit(bit)),
        }
    }
}
