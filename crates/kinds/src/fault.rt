/// A fault of a supplied bank.
#[derive(Clone, Copy, Debug, PartialEq, Eq, Hash)]
pub enum BankFault {
    /// A bank cannot have so many lanes.
    Lanes,
}
