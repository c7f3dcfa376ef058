//! Fields written into the caller's bytes, one after the other.
#![tactic(auto, unfolding(recording::specs::Layout::Laid, recording::specs::Layout::gap, recording::specs::Layout::span))]

ghost use Rattle.std.specs.Prelude.{◌≡◌, [], ◌∷◌};
ghost use Rattle.bits.specs.Widths.{bits_of};
ghost use Rattle.recording.specs.Layout.{bits};
ghost use Rattle.writer.specs.Laying.{LaidOver, Ready, filling_fields};

use bits::set::set;
use bits::width::Width;
use recording::layout::FILLING;

/// A place in the caller's bytes, counted in bits, at which the next field is written.
#[derive(Drop)]
pub(crate) struct BitWriter<'a> {
    bytes: &'a mut [u8],
    place: usize,
}

impl<'a> BitWriter<'a> {
    /// A writer at the first bit.
    pub(crate) fn new(bytes: &'a mut [u8]) -> BitWriter<'a>
        ensures same_reference { result.bytes.ghost_name ≡ bytes.entry.ghost_name }
        ensures bytes { result.bytes.now ≡ bytes.old }
        ensures place { result.place ≡ 0 }
    {
        BitWriter { bytes, place: 0 }
    }

    /// Writes a field for which there is room, and moves past it.
    pub(crate) fn put(&mut self, width: Width, value: u16)
        requires { Ready self.old (bits (bits_of width) value ∷ []) }
        ensures { LaidOver self.old self.new (bits (bits_of width) value ∷ []) }
    {
        self.place = set(self.bytes, self.place, width, value).unwrap();
    }

    /// Writes zero bits up to the end of a byte.
    pub(crate) fn fill(&mut self)
        requires { Ready self.old (filling_fields self.old.place) }
        ensures { LaidOver self.old self.new (filling_fields self.old.place) }
    {
        while self.place % 8 != 0 {
            self.put(FILLING.width, 0);
        }
    }
}
