//! The bit layer: numbers of a few bits, packed without gaps, most significant bit first.
#![tactic(auto)]

pub mod cursor;
pub mod fault;
mod paste;
pub mod set;
pub mod told;
pub mod width;
mod window;
