ghost use Rattle.bank.specs.Rules.{Rule};
ghost use Rattle.kinds.specs.Picks.{Picks};
ghost use Rattle.std.specs.Prelude.{◌≡◌};

/// A kind of lane: its rule, which says which of the orders that a lane holds may leave it, and its choice of the one to
/// offer. A lane's orders are given from oldest to newest.
pub trait Kind {
    ghost rule: { Self → Rule };

    /// Whether an order that the lane holds may leave.
    fn allows(&self, held: &[u16], order: u16) -> bool
        ensures { result ≡ rule self.now held.now order };

    /// Nothing exactly when the lane holds nothing; else one of its orders that may leave.
    fn pick(&self, held: &[u16]) -> Option<u16>
        ensures { Picks (rule self.now) held.now result };
}
