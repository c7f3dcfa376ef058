//! The kinds of bank that are supplied: queue, stack and pool.
#![tactic(auto)]

pub mod array;
pub mod fault;
pub mod kind;
mod lane;
mod orders;
pub mod pool;
pub mod queue;
pub mod stack;
mod table;
#[cfg(test)]
mod tests;
