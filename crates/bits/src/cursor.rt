ghost use Rattle.std.specs.Prelude.{◌≡◌, ◌+◌, ◌*◌, ◌<◌, ◌≤◌, length, MatchResult, nat_le};
ghost use Rattle.bits.specs.Bits.{reach, spelled};
ghost use Rattle.bits.specs.Told.{bit_told, told};
ghost use Rattle.bits.specs.Widths.{bits_of};
ghost use Rattle.bits.specs.declared.told.Place.TheVariants.{AtBit};

use crate::fault::BitFault;
use crate::width::Width;
use crate::window::{cut, field_end};

/// A place in the caller's bytes, counted in bits, that never passes their end.
#[derive(Drop)]
pub struct BitCursor<'a> {
    bytes: &'a [u8],
    place: usize,
    ghost within: { place ≤ 8 * length bytes.now },
}

impl<'a> BitCursor<'a> {
    /// A cursor at the first bit.
    pub fn new(bytes: &'a [u8]) -> BitCursor<'a>
        ensures bytes { result.bytes.now ≡ bytes.now }
        ensures place { result.place ≡ 0 }
    {
        BitCursor { bytes, place: 0 }
    }

    /// The place, counted in bits from 0.
    pub fn place(&self) -> usize
        ensures { result ≡ self.now.place }
    {
        self.place
    }

    /// Whether no bit is left.
    pub fn at_end(&self) -> bool
        ensures { result ≡ nat_le (8 * length self.now.bytes.now) self.now.place }
    {
        self.bytes.len() <= self.place / 8
    }

    /// The number that the next bits spell, and the cursor moves past them; or, where the bytes end before, a fault, and
    /// the cursor stays.
    pub fn take(&mut self, width: Width) -> Result<u16, BitFault>
        ensures bytes { self.new.bytes.now ≡ self.old.bytes.now }
        ensures result { MatchResult result
            (λ v. (v ≡ spelled self.old.bytes.now self.old.place (bits_of width))
            × (self.new.place ≡ self.old.place + bits_of width)
            × (self.old.place + bits_of width ≤ reach self.old.bytes.now))
            (λ e. (bit_told e ≡ told 1 (AtBit self.old.place))
            × (self.new.place ≡ self.old.place)
            × (reach self.old.bytes.now < self.old.place + bits_of width)) }
    {
        let end = field_end(self.bytes, self.place, width).ok_or(BitFault::Ends {
            bit: self.place,
        })?;
        let value = cut(self.bytes, self.place, width);
        self.place = end;
        Ok(value)
    }
}
