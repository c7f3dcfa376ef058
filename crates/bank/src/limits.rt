//! The limits of a bank. An order's limit is that of a recording, `recording::record::MAX_ORDER`.
use recording::record::MAX_STATIONS;

/// The most lanes that a bank has: one for each station.
pub const MAX_LANES: usize = MAX_STATIONS;

/// The most orders that a lane may hold, in any bank.
pub const MAX_DEPTH: usize = 64;
