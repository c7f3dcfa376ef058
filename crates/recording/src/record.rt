ghost use Rattle.recording.specs.Record.{all_zero, carries, max_kind, number_of};
ghost use Rattle.std.specs.Prelude.{◌≡◌, ◌<◌, MatchResult};

/// The highest code of a kind of lane.
pub const MAX_CODE: u16 = 3;

/// The highest number of a kind of event.
pub const MAX_KIND: u16 = 4;

/// The highest order.
pub const MAX_ORDER: u16 = 4095;

/// The highest call number.
pub const MAX_CALL: u16 = 511;

/// The most stations that a recording has.
pub const MAX_STATIONS: usize = 8;

/// The most events that a recording has.
pub const MAX_EVENTS: usize = 1024;

/// The most entries that a station's line-up has.
pub const MAX_ENTRIES: usize = 512;

/// The most entries that all line-ups of a recording have together.
pub const ALL_ENTRIES: usize = 4096;

/// What an event tells. A station (a thread of the run, such as the wheel or the winch) calls a post, which puts an order
/// (a numbered value) into the store, or a draw, which takes one out; later the call is answered. Each kind has a number in
/// a file.
#[derive(Clone, Copy, Debug, PartialEq, Eq, Hash)]
pub enum EventKind {
    /// A post of an order is called. Carries the order.
    PostCalled = 0,
    /// A draw is called.
    DrawCalled = 1,
    /// A post is answered.
    PostAnswered = 2,
    /// A draw is answered with an order. Carries the order.
    DrawAnswered = 3,
    /// A draw is answered empty.
    DrawEmpty = 4,
}

impl EventKind {
    /// Whether an event of this kind carries an order.
    pub fn carries_order(self) -> bool
        ensures { result ≡ carries self }
    {
        match self {
            EventKind::PostCalled | EventKind::DrawAnswered => true,
            EventKind::DrawCalled | EventKind::PostAnswered | EventKind::DrawEmpty => false,
        }
    }
}

impl From<EventKind> for u16 {
    ghost from_gives = { λ kind number. number ≡ number_of kind };

    /// The number that stands for the kind in a file.
    fn from(kind: EventKind) -> u16 {
        kind as u16
    }
}

/// A number that stands for no kind of event.
// Apart from `OtherLane`: each says in a signature what was not found.
#[derive(Clone, Copy, Debug, PartialEq, Eq, Hash)]
pub struct UnknownKind;

impl TryFrom<u16> for EventKind {
    type Error = UnknownKind;

    ghost try_from_gives = { λ number result. MatchResult result
        (λ kind. number ≡ number_of kind)
        (λ _. max_kind < number) };

    /// The kind that a number stands for in a file.
    fn try_from(number: u16) -> Result<EventKind, UnknownKind> {
        match number {
            0 => Ok(EventKind::PostCalled),
            1 => Ok(EventKind::DrawCalled),
            2 => Ok(EventKind::PostAnswered),
            3 => Ok(EventKind::DrawAnswered),
            MAX_KIND => Ok(EventKind::DrawEmpty),
            _ => Err(UnknownKind),
        }
    }
}

/// One event of a recording.
#[derive(Clone, Copy, Debug, PartialEq, Eq, Hash)]
pub struct Event {
    pub kind: EventKind,
    /// The station that calls or is answered.
    pub station: u16,
    /// The order that the event carries, or 0 where it carries none.
    pub order: u16,
}

/// A recording of a store's run: its events, and for each station a line-up, which is a sequence of calls that claims to be
/// a linearization of that station's part of the run: its posts, the draws that gave its orders, and the empty draws.
/// Places that are not used hold zero.
// Fixed tables with their counts beside: there is no heap, and what the places not in use hold is part of a record.
#[derive(Debug, PartialEq, Eq, Hash, Drop)]
pub struct Recording {
    /// The kind of lane (the station's own part of the store, which holds its orders until they are drawn) that the run
    /// was made over: 1 queue, 2 stack, 3 pool, 0 any other rule.
    // A number and no `LaneKind`, since a record can hold any: the range check refuses one above 3 by 2, at its bit.
    pub code: u16,
    /// How many stations there are.
    pub stations: u16,
    /// How many events there are.
    pub count: u16,
    /// The events, in the sequence in which they happened.
    pub events: [Event; MAX_EVENTS],
    /// The length of each station's line-up.
    pub lengths: [u16; MAX_STATIONS],
    /// The entries of all line-ups, station by station; each is the number of a call, counted from 0 by call events.
    pub entries: [u16; ALL_ENTRIES],
}

impl Event {
    /// The event that is zero throughout, which stands in the places that are not in use.
    pub const ZERO: Event = Event {
        kind: EventKind::PostCalled,
        station: 0,
        order: 0,
    };
}

impl Recording {
    /// A record with zero in every place.
    pub fn zero() -> Recording
        ensures { result ≡ all_zero }
    {
        Recording {
            code: 0,
            stations: 0,
            count: 0,
            events: [Event::ZERO; MAX_EVENTS],
            lengths: [0; MAX_STATIONS],
            entries: [0; ALL_ENTRIES],
        }
    }
}
