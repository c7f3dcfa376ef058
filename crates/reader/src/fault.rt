ghost use Rattle.reader.specs.Faults.{read_told};
ghost use Rattle.reader.specs.declared.fault.ReadFault.TheVariants.{Bit, Field};
ghost use Rattle.std.specs.Prelude.{◌≡◌};

use bits::fault::BitFault;
use bits::told::{Place, Told};
use recording::fault::FieldFault;

/// A fault of a file.
#[derive(Clone, Copy, Debug, PartialEq, Eq, Hash)]
pub enum ReadFault {
    /// The bytes end inside a field.
    Bit(BitFault),
    /// A field holds what it must not.
    Field(FieldFault),
    /// A filling bit is 1, or a byte follows the filling; that bit, or the byte's first, is told.
    Filling { bit: usize },
}

// By hand, like the next: the conversion of `thiserror`'s `#[from]` promises nothing.
impl From<BitFault> for ReadFault {
    ghost from_gives = { λ e r. r ≡ Bit e };

    fn from(fault: BitFault) -> ReadFault {
        ReadFault::Bit(fault)
    }
}

impl From<FieldFault> for ReadFault {
    ghost from_gives = { λ e r. r ≡ Field e };

    fn from(fault: FieldFault) -> ReadFault {
        ReadFault::Field(fault)
    }
}

impl From<ReadFault> for Told {
    ghost from_gives = { λ fault told. told ≡ read_told fault };

    /// The fault's number and place.
    fn from(fault: ReadFault) -> Told {
        match fault {
            ReadFault::Bit(inner) => inner.into(),
            ReadFault::Field(inner) => inner.into(),
            ReadFault::Filling { bit } => Told::new(3, Place::AtBit(bit)),
        }
    }
}
