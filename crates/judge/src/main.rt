//! Reads a recording from standard input, and writes the verdict on it to standard output, in one line.
#![tactic(auto)]

ghost use Rattle.std.specs.Prelude.{◌≡◌, ◌≤◌, length, IfOk, MatchResult};
ghost use Rattle.judge.specs.Judge.{record_left, refusal};
ghost use Rattle.reader.specs.Reading.{decode};
ghost use Rattle.verdict.specs.Faults.{judge_told};
ghost use Rattle.verdict.specs.Report.{line_of, refused_line};

use reader::read;
use recording::record::Recording;
use std::io;
use std::io::{Read, Write};
use verdict::fault::JudgeFault;
use verdict::report::{LONGEST, report};
use verdict::verdict::Verdict;

/// The most bytes that are read: more than any file has, so that what follows a file is seen.
const MAX_INPUT: usize = 8193;

/// Reads until the input ends or the buffer is full, and says how many bytes were read.
/// A read may give fewer bytes than there are to come, so only a read of no byte is the end.
/// A read that a signal interrupts is an error of the kind `Interrupted`, and is handed on as any other error.
fn read_input(input: &mut impl Read, buffer: &mut [u8]) -> io::Result<usize>
    ensures { IfOk result (λ n. n ≤ length buffer.old) }
{
    // The library's `io::copy`, `read_exact` and `bytes` try an interrupted read again, so none of them can stand here.
    let size = buffer.len();
    let mut rest = buffer;
    while !rest.is_empty() {
        match input.read(rest)? {
            0 => break,
            count => rest = &mut rest[count..],
        }
    }
    Ok(size - rest.len())
}

/// Reads a file and judges its recording. Nothing judges by a bank here yet, so no station has a lane, and nothing is accepted.
fn judge(bytes: &[u8], recording: &mut Recording) -> Verdict
    ensures fault { MatchResult result (λ _. ⊥) (λ fault. judge_told fault ≡ refusal (decode bytes.now)) }
    ensures line { line_of result ≡ refused_line (refusal (decode bytes.now)) }
    ensures recording { recording.new ≡ record_left (decode bytes.now) }
{
    read(bytes, recording)?;
    Err(JudgeFault::NoLane { station: 0 })
}

fn main(rt: HostRuntime) -> io::Result<()> {
    // Buffers of a fixed size, with what is in use of them beside: the program allocates nothing.
    let mut input = [0; MAX_INPUT];
    let size = read_input(&mut rt.stdin(), &mut input)?;
    let mut recording = Recording::zero();
    let verdict = judge(&input[..size], &mut recording);
    let mut line = [0; LONGEST];
    let count = report(verdict, &mut line).unwrap();
    rt.stdout().write_all(&line[..count])
}

#[cfg(test)]
mod tests;
