//! The kinds of lane, by the codes that name them in a recording.
ghost use Rattle.recording.specs.Lanes.{Names};

/// The kinds of lane that have a name. A lane is a station's own part of the store, which holds its orders until they are
/// drawn; its kind says which of them may leave.
#[derive(Clone, Copy, Debug, PartialEq, Eq, Hash)]
pub enum LaneKind {
    /// Only the oldest order may leave.
    Queue,
    /// Only the newest order may leave.
    Stack,
    /// Every order may leave.
    Pool,
}

/// A code that names none of these: 0, for any other rule, or one above 3, which no recording within the limits has.
#[derive(Clone, Copy, Debug, PartialEq, Eq, Hash)]
pub struct OtherLane;

impl TryFrom<u16> for LaneKind {
    type Error = OtherLane;

    ghost try_from_gives = { Names };

    /// The kind that a code names.
    fn try_from(code: u16) -> Result<LaneKind, OtherLane> {
        match code {
            1 => Ok(LaneKind::Queue),
            2 => Ok(LaneKind::Stack),
            3 => Ok(LaneKind::Pool),
            _ => Err(OtherLane),
        }
    }
}
