//! Banks of lanes: what every bank means, and what can be done with any bank.
#![tactic(auto)]

pub mod bank;
pub mod draw;
pub mod limits;
