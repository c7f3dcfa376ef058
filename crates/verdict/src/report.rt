ghost use Rattle.std.specs.Prelude.{◌≡◌, ◌<◌, ◌≤◌, ◌++◌, length, drop, MatchResult};
ghost use Rattle.bits.specs.Told.{told as tells};
ghost use Rattle.bits.specs.declared.told.Place.TheVariants.{Needs};
ghost use Rattle.verdict.specs.Faults.{report_told};
ghost use Rattle.verdict.specs.Report.{accepted_line, word_of_kind, line_of, refused_line};
ghost use Rattle.verdict.specs.Room.{room};

use crate::fault::ReportFault;
use crate::line::{Line, ROOM};
use crate::verdict::{Accepted, Verdict};
use bits::told::{Place, Told};
use recording::lane::{LaneKind, OtherLane};

/// How many bytes are enough for any line.
pub const LONGEST: usize = ROOM;

/// The word for the kind of lane that a code names.
// It takes the code, since there is a word for every code.
fn kind_word(code: u16) -> &'static [u8]
    ensures { result.now ≡ word_of_kind code }
{
    match LaneKind::try_from(code) {
        Ok(LaneKind::Queue) => b"queue",
        Ok(LaneKind::Stack) => b"stack",
        Ok(LaneKind::Pool) => b"pool",
        Err(OtherLane) => b"other",
    }
}

/// The line of a verdict that accepts.
// The words are fixed byte strings, here and below, and not `write!`: the project fixes that form.
fn acceptance(accepted: Accepted) -> Line
    ensures { result ≡ accepted_line accepted }
{
    let mut line = Line::new();
    line.push(b"accepted ");
    line.push(kind_word(accepted.code));
    line.push_number(b" stations ", accepted.stations);
    line.push_number(b" calls ", accepted.calls);
    line.push(b"\n");
    line
}

/// The line of a verdict that refuses.
fn refusal(told: Told) -> Line
    ensures { result ≡ refused_line told }
{
    let mut line = Line::new();
    line.push_number(b"refused ", told.number);
    match told.place {
        Place::AtBit(bit) => line.push_number(b" bit ", bit),
        Place::AtEvent(event) => line.push_number(b" event ", event),
        Place::AtEntry { station, entry } => {
            line.push_number(b" station ", station);
            line.push_number(b" entry ", entry);
        }
        Place::Needs(size) => line.push_number(b" needs ", size),
    }
    line.push(b"\n");
    line
}

/// The line of a verdict.
fn compose(verdict: Verdict) -> Line
    ensures { result ≡ line_of verdict }
{
    match verdict {
        Ok(accepted) => acceptance(accepted),
        Err(fault) => refusal(fault.into()),
    }
}

/// Writes the line of a verdict to the front of a buffer, and says how many bytes it has.
/// A buffer that is too short is left as it was.
pub fn report(verdict: Verdict, into: &mut [u8]) -> Result<usize, ReportFault>
    ensures result { MatchResult result
        (λ n. (n ≡ length (line_of verdict)) × (length (line_of verdict) ≤ length into.old)
        × (into.new ≡ line_of verdict ++ drop (length (line_of verdict)) into.old))
        (λ e. (report_told e ≡ tells 17 (Needs (length (line_of verdict)))) × (length into.old < length (line_of verdict))
        × (into.new ≡ into.old)) }
    ensures longest { (length (line_of verdict) ≤ room) × (LONGEST ≡ room) }
{
    let line = compose(verdict);
    let text = line.text();
    let needed = text.len();
    if into.len() < needed {
        return Err(ReportFault::Short { needed });
    }
    into[..needed].copy_from_slice(text);
    Ok(needed)
}

#[cfg(test)]
mod tests {
    use super::*;
    use crate::fault::JudgeFault;
    use std::test::Fail;

    #[test]
    fn accepts(rt: HostRuntime) -> Result<(), Fail> {
        let verdict = Ok(Accepted {
            code: 1,
            stations: 1,
            calls: 2,
        });
        let mut buffer = [b'.'; 36];
        assert_eq!(rt; report(verdict, &mut buffer)?, 34);
        assert_eq!(rt; buffer, *b"accepted queue stations 1 calls 2\n..");
        Ok(())
    }

    #[test]
    fn refuses(rt: HostRuntime) -> Result<(), Fail> {
        let verdict = Err(JudgeFault::Missing {
            station: 7,
            length: 510,
        });
        let mut buffer = [b'.'; 31];
        assert_eq!(rt; report(verdict, &mut buffer)?, 31);
        assert_eq!(rt; buffer, *b"refused 16 station 7 entry 510\n");
        Ok(())
    }

    #[test]
    fn leaves_a_short_buffer(rt: HostRuntime) {
        let verdict = Err(JudgeFault::Busy { event: 0 });
        let mut buffer = [b'.'; 17];
        assert_eq!(rt;
            report(verdict, &mut buffer),
            Err(ReportFault::Short { needed: 18 })
        );
        assert_eq!(rt; buffer, [b'.'; 17]);
    }
}
