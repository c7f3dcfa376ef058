use crate::fault::JudgeFault;

/// What a report tells of a recording that is accepted.
#[derive(Clone, Copy, Debug, PartialEq, Eq, Hash)]
pub struct Accepted {
    /// The code of its kind of lane.
    // A number and no `LaneKind`, since a report has a word for every code.
    pub code: u16,
    /// Its number of stations.
    pub stations: usize,
    /// Its number of calls.
    pub calls: usize,
}

/// A verdict on a recording, as a report tells it: accepted, or refused for the first fault met.
pub type Verdict = Result<Accepted, JudgeFault>;
