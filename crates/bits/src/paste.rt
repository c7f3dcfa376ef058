//! Writing a field into its window of three bytes.
ghost use Rattle.std.specs.Prelude.{◌≡◌, ◌+◌, ◌-◌, ◌*◌, ◌/◌, ◌%◌, ◌^◌, ◌<◌, ◌≤◌, length, bit_and, slice_set};
ghost use Rattle.bits.specs.Bits.{Overwritten};
ghost use Rattle.bits.specs.Widths.{bits_of};

use crate::width::Width;
use crate::window::{mask, shift, window};

/// Writes the lowest 8 bits of a number at an index, or nothing past the end.
fn put_byte(bytes: &mut [u8], index: usize, value: u32)
    ensures { bytes.new ≡ slice_set bytes.old index (value % 256) }
{
    if index < bytes.len() {
        bytes[index] = (value & 0xff) as u8;
    }
}

/// Writes the lowest 24 bits of a number as the three bytes from an index on, without those past the end.
fn put_window(bytes: &mut [u8], first: usize, value: u32)
    requires { first < 2 ^ 62 }
    ensures { bytes.new
        ≡ slice_set (slice_set (slice_set bytes.old first (value / 65536 % 256)) (first + 1) (value / 256 % 256)) (first + 2) (value % 256) }
{
    put_byte(bytes, first, value >> 16);
    put_byte(bytes, first + 1, value >> 8);
    put_byte(bytes, first + 2, value);
}

/// A window with zeros in place of the bits of a hole.
fn cleared(window: u32, hole: u32) -> u32
    ensures { result ≡ bit_and window (2 ^ 32 - 1 - hole) }
{
    window & !hole
}

/// Sets the field at a place to the lowest bits of a number; all other bits stay.
pub(crate) fn paste(bytes: &mut [u8], place: usize, width: Width, value: u16)
    requires { place + bits_of width ≤ 8 * length bytes.old }
    ensures { Overwritten bytes.old bytes.new place (bits_of width) (value % 2 ^ bits_of width) }
{
    let shift = shift(place, width);
    let ones = mask(width);
    let around = cleared(window(bytes, place / 8), ones << shift);
    let field = (u32::from(value) & ones) << shift;
    put_window(bytes, place / 8, around | field);
}
