//! The layout of a file: how many bits each field has, and which numbers may stand there.
use crate::record::{
    MAX_CALL, MAX_CODE, MAX_ENTRIES, MAX_EVENTS, MAX_KIND, MAX_ORDER, MAX_STATIONS,
};
use bits::width::Width;

/// A kind of field: how many bits it has, and the lowest and the highest number that may stand there.
#[derive(Clone, Copy, Debug, PartialEq, Eq, Hash)]
pub struct FieldKind {
    pub width: Width,
    pub low: u16,
    pub high: u16,
}

/// The edition of the layout.
pub const EDITION: FieldKind = FieldKind {
    width: Width::Four,
    low: 1,
    high: 1,
};

/// The kind of lane.
pub const CODE: FieldKind = FieldKind {
    width: Width::Four,
    low: 0,
    high: MAX_CODE,
};

/// The number of stations.
pub const STATIONS: FieldKind = FieldKind {
    width: Width::Four,
    low: 1,
    high: MAX_STATIONS as u16,
};

/// The number of events.
pub const COUNT: FieldKind = FieldKind {
    width: Width::Eleven,
    low: 0,
    high: MAX_EVENTS as u16,
};

/// An event's kind.
pub const KIND: FieldKind = FieldKind {
    width: Width::Three,
    low: 0,
    high: MAX_KIND,
};

/// An event's station, in a recording with as many stations as there can be.
pub const STATION: FieldKind = FieldKind {
    width: Width::Three,
    low: 0,
    high: MAX_STATIONS as u16 - 1,
};

/// An event's order.
pub const ORDER: FieldKind = FieldKind {
    width: Width::Twelve,
    low: 0,
    high: MAX_ORDER,
};

/// A line-up's length.
pub const LENGTH: FieldKind = FieldKind {
    width: Width::Ten,
    low: 0,
    high: MAX_ENTRIES as u16,
};

/// An entry.
pub const ENTRY: FieldKind = FieldKind {
    width: Width::Nine,
    low: 0,
    high: MAX_CALL,
};

/// A filling bit.
pub const FILLING: FieldKind = FieldKind {
    width: Width::One,
    low: 0,
    high: 0,
};
