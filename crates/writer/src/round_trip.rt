//! Round trips: what was written is read back, and what was read is written back.
ghost use Rattle.reader.specs.Faults.{read_told};
ghost use Rattle.reader.specs.Reading.{Faulty, Holds};
ghost use Rattle.recording.specs.Record.{all_zero};
ghost use Rattle.writer.specs.Faults.{write_told};
ghost use Rattle.writer.specs.Writing.{Rewritten, Unwritten, Written};
ghost use Rattle.std.specs.Prelude.{◌≡◌, ◌<◌, ℕ, List, length, take, slice_index, MatchResult};

use crate::fault::WriteFault;
use crate::write;
use reader::fault::ReadFault;
use reader::read;
use recording::record::Recording;

/// Writes a recording, and reads what was written: reading it gives the recording back, with no fault.
pub fn write_then_read(
    recording: &Recording,
    buffer: &mut [u8],
    again: &mut Recording,
) -> Result<usize, WriteFault>
    ensures { MatchResult result
        (λ size. Written recording.now buffer.old buffer.new size
        × Holds (take size buffer.new) recording.now
        × (again.new ≡ recording.now))
        (λ e. Unwritten recording.now (length buffer.old) (write_told e)
        × (buffer.new ≡ buffer.old)
        × (again.new ≡ again.old)) }
{
    let size = write(recording, buffer)?;
    read(&buffer[..size], again).unwrap();
    Ok(size)
}

/// Writes a recording. Whatever file the recording was read from, the writing gives that file back.
fn write_back(recording: &Recording, buffer: &mut [u8]) -> Result<usize, WriteFault>
    ensures { (file : List ℕ) → ((i : ℕ) → slice_index file i < 256)
        → Holds file recording.now
        → Rewritten file buffer.old buffer.new result }
{
    write(recording, buffer)
}

/// Reads a file, and writes what was read: writing it gives the file back, byte for byte, if the buffer is long enough. The
/// outer result is that of the reading, the inner one that of the writing.
pub fn read_then_write(
    file: &[u8],
    recording: &mut Recording,
    buffer: &mut [u8],
) -> Result<Result<usize, WriteFault>, ReadFault>
    ensures { MatchResult result
        (λ w. Holds file.now recording.new × Rewritten file.now buffer.old buffer.new w)
        (λ e. Faulty file.now (read_told e) × (recording.new ≡ all_zero) × (buffer.new ≡ buffer.old)) }
{
    read(file, recording)?;
    Ok(write_back(recording, buffer))
}
