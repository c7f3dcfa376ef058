//! The writer of recordings: a record into a file's bytes.
#![tactic(auto)]

mod bit_writer;
pub mod fault;
mod laying;
pub mod round_trip;

ghost use Rattle.std.specs.Prelude.{◌≡◌, ◌≤◌, length, MatchResult};
ghost use Rattle.recording.specs.Record.{Limits};
ghost use Rattle.writer.specs.Faults.{write_told};
ghost use Rattle.writer.specs.Writing.{Unwritten, Written, file_size, max_size};

use crate::fault::WriteFault;
use crate::laying::lay_file;
use recording::check::check;
use recording::record::Recording;

/// How many bytes are enough for any file.
pub const LONGEST: usize = 6925;

/// Lays out the file of a recording, which has so many bytes, at the front of the buffer.
fn lay_front(recording: &Recording, buffer: &mut [u8], size: usize)
    requires limits { Limits recording.now }
    requires size { size ≡ file_size recording.now }
    requires small { size ≤ max_size }
    requires room { size ≤ length buffer.old }
    ensures { Written recording.now buffer.old buffer.new size }
{
    lay_file(recording, &mut buffer[..size]);
}

/// Writes a recording's file to the front of a buffer, and tells how many bytes it takes. What lies past it stays as it
/// was. A record that is not within the limits is refused, and then a buffer that is too short; either leaves the buffer
/// as it was.
pub fn write(recording: &Recording, buffer: &mut [u8]) -> Result<usize, WriteFault>
    ensures result { MatchResult result
        (λ size. Written recording.now buffer.old buffer.new size)
        (λ e. Unwritten recording.now (length buffer.old) (write_told e) × (buffer.new ≡ buffer.old)) }
    ensures longest { LONGEST ≡ max_size }
{
    let bits = check(recording)?;
    let needed = bits.div_ceil(8);
    if buffer.len() < needed {
        return Err(WriteFault::Short { needed });
    }
    lay_front(recording, buffer, needed);
    Ok(needed)
}
