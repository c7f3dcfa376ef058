//! A window of three bytes: a field of at most 12 bits always lies within one.
//!
//! Place and width are two parameters, as `set` takes them and as a cursor has its place already; a struct for both would be made
//! at each call. That an index is below a power of two is asked here and in `paste`: no slice is so long, but no type says so.
ghost use Rattle.std.specs.Prelude.{◌≡◌, ◌+◌, ◌-◌, ◌*◌, ◌%◌, ◌^◌, ◌<◌, ◌≤◌, MatchOption, slice_index};
ghost use Rattle.bits.specs.Bits.{reach, spelled};
ghost use Rattle.bits.specs.Widths.{bits_of};

use crate::width::Width;

/// The mask of a field: two to the power of its width, less one.
pub(crate) fn mask(width: Width) -> u32
    ensures { result ≡ 2 ^ bits_of width - 1 }
{
    (1 << width.bits()) - 1
}

/// How many bits of its window stand after the field at a place.
pub(crate) fn shift(place: usize, width: Width) -> usize
    ensures { result ≡ 24 - place % 8 - bits_of width }
{
    24 - place % 8 - width.bits()
}

/// The byte at an index, or 0 past the end.
fn byte(bytes: &[u8], index: usize) -> u32
    ensures { result ≡ slice_index bytes.now index }
{
    bytes.get(index).map_or(0, |&byte| u32::from(byte))
}

/// The three bytes from an index on as one number, with zeros past the end.
pub(crate) fn window(bytes: &[u8], first: usize) -> u32
    requires { first < 2 ^ 62 }
    ensures { result ≡ spelled bytes.now (8 * first) 24 }
{
    byte(bytes, first) << 16 | byte(bytes, first + 1) << 8 | byte(bytes, first + 2)
}

/// The number that the field at a place spells.
pub(crate) fn cut(bytes: &[u8], place: usize, width: Width) -> u16
    ensures { result ≡ spelled bytes.now place (bits_of width) }
{
    (window(bytes, place / 8) >> shift(place, width) & mask(width)) as u16
}

/// The bit after the field at a place, or nothing where the bytes end before, or where 64 bits cannot count so far.
pub(crate) fn field_end(bytes: &[u8], place: usize, width: Width) -> Option<usize>
    ensures { MatchOption result
        (reach bytes.now < place + bits_of width)
        (λ end. (end ≡ place + bits_of width) × (place + bits_of width ≤ reach bytes.now)) }
{
    place
        .checked_add(width.bits())
        .filter(|end| end.div_ceil(8) <= bytes.len())
}
