ghost use Rattle.std.specs.Prelude.{◌≡◌, ◌+◌, ◌%◌, ◌^◌, ◌<◌, ◌≤◌, MatchResult};
ghost use Rattle.bits.specs.Bits.{Overwritten, reach};
ghost use Rattle.bits.specs.Told.{bit_told, told};
ghost use Rattle.bits.specs.Widths.{bits_of};
ghost use Rattle.bits.specs.declared.told.Place.TheVariants.{AtBit};

use crate::fault::BitFault;
use crate::paste::paste;
use crate::width::Width;
use crate::window::field_end;

/// Sets the bits from a place on to the lowest bits of a number, and gives the bit after them. All other bits stay as they
/// were. Where the bytes end before, a fault, and all bytes stay.
pub fn set(bytes: &mut [u8], place: usize, width: Width, value: u16) -> Result<usize, BitFault>
    ensures { MatchResult result
        (λ end. (end ≡ place + bits_of width)
        × (place + bits_of width ≤ reach bytes.old)
        × Overwritten bytes.old bytes.new place (bits_of width) (value % 2 ^ bits_of width))
        (λ e. (bit_told e ≡ told 1 (AtBit place))
        × (reach bytes.old < place + bits_of width)
        × (bytes.new ≡ bytes.old)) }
{
    let end = field_end(bytes, place, width).ok_or(BitFault::Ends { bit: place })?;
    paste(bytes, place, width, value);
    Ok(end)
}
