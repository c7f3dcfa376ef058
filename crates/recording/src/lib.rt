//! Recordings of a store's run: the record and its kinds, the layout of its file, its limits and their check.
#![tactic(auto)]

pub mod check;
pub mod fault;
pub mod items;
pub mod lane;
pub mod layout;
pub mod range;
pub mod record;
