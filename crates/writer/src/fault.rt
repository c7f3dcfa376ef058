ghost use Rattle.writer.specs.Faults.{write_told};
ghost use Rattle.writer.specs.declared.fault.WriteFault.TheVariants.{Field};
ghost use Rattle.std.specs.Prelude.{◌≡◌};

use bits::told::{Place, Told};
use recording::fault::FieldFault;

/// A fault of a writing.
#[derive(Clone, Copy, Debug, PartialEq, Eq, Hash)]
pub enum WriteFault {
    /// The record is not within the limits.
    Field(FieldFault),
    /// The buffer is too short for the file, whose size in bytes is told.
    Short { needed: usize },
}

// By hand, as the conversion of `thiserror`'s `#[from]` promises nothing.
impl From<FieldFault> for WriteFault {
    ghost from_gives = { λ e r. r ≡ Field e };

    fn from(fault: FieldFault) -> WriteFault {
        WriteFault::Field(fault)
    }
}

impl From<WriteFault> for Told {
    ghost from_gives = { λ fault told. told ≡ write_told fault };

    /// The fault's number and place.
    fn from(fault: WriteFault) -> Told {
        match fault {
            WriteFault::Field(inner) => inner.into(),
            WriteFault::Short { needed } => Told::new(17, Place::Needs(needed)),
        }
    }
}
