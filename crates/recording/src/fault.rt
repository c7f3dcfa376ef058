ghost use Rattle.recording.specs.Faults.{field_told};
ghost use Rattle.std.specs.Prelude.{◌≡◌};

use bits::told::{Place, Told};

/// A fault of a field, in a file or in a record.
#[derive(Clone, Copy, Debug, PartialEq, Eq, Hash)]
pub enum FieldFault {
    /// The field is outside its range. Its first bit is told, which for a record is the bit where it would stand in a file;
    /// of an order that is not carried and not 0, the bit of its event's kind; of a place that is not in use and not zero,
    /// the bit after the last entry.
    Range { bit: usize },
}

impl From<FieldFault> for Told {
    ghost from_gives = { λ fault told. told ≡ field_told fault };

    /// The fault's number and place.
    fn from(fault: FieldFault) -> Told {
        match fault {
            FieldFault::Range { bit } => Told::new(2, Place::AtBit(bit)),
        }
    }
}
