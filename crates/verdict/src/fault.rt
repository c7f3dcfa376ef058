ghost use Rattle.bits.specs.Told.{told as tells};
ghost use Rattle.bits.specs.declared.told.Place.TheVariants.{AtEntry, AtEvent};
ghost use Rattle.verdict.specs.Faults.{judge_told, report_told};
ghost use Rattle.verdict.specs.declared.fault.JudgeFault.TheVariants.{Read};
ghost use Rattle.std.specs.Prelude.{◌≡◌};

use bits::told::{Place, Told};
use reader::fault::ReadFault;

/// A fault for which a recording is refused.
#[derive(Clone, Copy, Debug, PartialEq, Eq, Hash)]
pub enum JudgeFault {
    /// The file could not be read.
    Read(ReadFault),
    /// A call by a station that has a call open.
    Busy { event: usize },
    /// An answer at a station with no open call, or with one of the other kind.
    Unmatched { event: usize },
    /// A post of an order that was posted before.
    PostedBefore { event: usize },
    /// A draw of an order that was drawn before.
    DrawnBefore { event: usize },
    /// A draw of an order that is posted nowhere.
    NeverPosted { event: usize },
    /// A call is open at the end; the lowest event of such a call is told.
    StillOpen { event: usize },
    /// A station has no lane; the first such is told, at entry 0.
    NoLane { station: usize },
    // Station and entry are two fields in the next five cases: as one struct they would be taken apart again for each place.
    /// An entry that is not a call of this station's induced history.
    Foreign { station: usize, entry: usize },
    /// An entry that names a call named earlier in this line-up.
    Repeated { station: usize, entry: usize },
    /// An entry whose call precedes a call named earlier.
    Overtaken { station: usize, entry: usize },
    /// A draw whose order is not held or may not leave, or an empty draw while an order is held.
    NotAdmitted { station: usize, entry: usize },
    /// A post to a lane that is full.
    LaneFull { station: usize, entry: usize },
    /// Calls are missing from a line-up, whose length is told.
    Missing { station: usize, length: usize },
}

// By hand, as the conversion of `thiserror`'s `#[from]` promises nothing.
impl From<ReadFault> for JudgeFault {
    ghost from_gives = { λ e r. r ≡ Read e };

    fn from(fault: ReadFault) -> JudgeFault {
        JudgeFault::Read(fault)
    }
}

/// A number at an event.
// The number is a parameter, here and below: an enum of numbers would only repeat the cases of the faults.
fn at_event(number: usize, event: usize) -> Told
    ensures { result ≡ tells number (AtEvent event) }
{
    Told::new(number, Place::AtEvent(event))
}

/// A number at an entry of a line-up.
fn at_entry(number: usize, station: usize, entry: usize) -> Told
    ensures { result ≡ tells number (AtEntry station entry) }
{
    Told::new(number, Place::AtEntry { station, entry })
}

impl From<JudgeFault> for Told {
    ghost from_gives = { λ fault told. told ≡ judge_told fault };

    /// The fault's number and place.
    fn from(fault: JudgeFault) -> Told {
        match fault {
            JudgeFault::Read(inner) => inner.into(),
            JudgeFault::Busy { event } => at_event(4, event),
            JudgeFault::Unmatched { event } => at_event(5, event),
            JudgeFault::PostedBefore { event } => at_event(6, event),
            JudgeFault::DrawnBefore { event } => at_event(7, event),
            JudgeFault::NeverPosted { event } => at_event(8, event),
            JudgeFault::StillOpen { event } => at_event(9, event),
            JudgeFault::NoLane { station } => at_entry(10, station, 0),
            JudgeFault::Foreign { station, entry } => at_entry(11, station, entry),
            JudgeFault::Repeated { station, entry } => at_entry(12, station, entry),
            JudgeFault::Overtaken { station, entry } => at_entry(13, station, entry),
            JudgeFault::NotAdmitted { station, entry } => at_entry(14, station, entry),
            JudgeFault::LaneFull { station, entry } => at_entry(15, station, entry),
            JudgeFault::Missing { station, length } => at_entry(16, station, length),
        }
    }
}

/// A fault of a report.
// `WriteFault` has this case too, among others: a struct for the one case would need a conversion where a case is one line.
#[derive(Clone, Copy, Debug, PartialEq, Eq, Hash)]
pub enum ReportFault {
    /// The buffer is too short for the line, whose size is told.
    Short { needed: usize },
}

impl From<ReportFault> for Told {
    ghost from_gives = { λ fault told. told ≡ report_told fault };

    /// The fault's number and place.
    fn from(fault: ReportFault) -> Told {
        match fault {
            ReportFault::Short { needed } => Told::new(17, Place::Needs(needed)),
        }
    }
}
