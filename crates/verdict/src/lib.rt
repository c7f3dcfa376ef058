//! Verdicts on recordings: their faults, and the line that reports one.
#![tactic(auto)]

pub mod fault;
mod line;
pub mod report;
pub mod verdict;
