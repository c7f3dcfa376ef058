//! What a file holds many of, one after the other. What is done with them, each crate says in a trait of its own.

/// The events of a recording with so many stations.
#[derive(Clone, Copy, Debug, PartialEq, Eq, Hash)]
pub struct Events {
    pub stations: u16,
}

/// The entries of a line-up.
#[derive(Clone, Copy, Debug, PartialEq, Eq, Hash)]
pub struct Entries;
