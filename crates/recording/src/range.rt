ghost use Rattle.std.specs.Prelude.{◌≡◌, ◌<◌, ◌≤◌, ◌⊎◌, MatchResult};
ghost use Rattle.bits.specs.Told.{told};
ghost use Rattle.bits.specs.declared.told.Place.TheVariants.{AtBit};
ghost use Rattle.recording.specs.Faults.{field_told};

use crate::fault::FieldFault;

/// The value of a field, if it is from `low` to `high`; else the fault, at the bit that is given.
// The two ends are parameters: a field has them in its `FieldKind`, but the range of an order that is not carried is no field's.
pub fn ranged(bit: usize, low: u16, high: u16, value: u16) -> Result<u16, FieldFault>
    ensures { MatchResult result
        (λ v. (v ≡ value) × (low ≤ value) × (value ≤ high))
        (λ e. (field_told e ≡ told 2 (AtBit bit)) × ((value < low) ⊎ (high < value))) }
{
    if value < low || value > high {
        return Err(FieldFault::Range { bit });
    }
    Ok(value)
}
