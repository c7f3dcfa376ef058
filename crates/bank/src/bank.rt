//! The interface of a bank.
ghost use Rattle.bank.specs.Model.{Model, Offers, Sound, after_out, after_put, can_leave, can_put, cleared, lanes_of};
ghost use Rattle.std.specs.Prelude.{◌≡◌, if◌then◌else◌};

/// A bank: a set of lanes that hold orders. A lane is a station's own part of a store; an order is a number up to
/// `MAX_ORDER`. What a bank means (`Model`) is its number of lanes, its depth, which is the most that a lane may hold, the
/// orders that each lane holds, from oldest to newest, and its rule, which says of a lane's orders and one of them whether
/// that one may leave.
///
/// No call alters the number of lanes, the depth or the rule, nor, `clear` aside, a lane that it does not name.
pub trait Bank {
    ghost model: { Self → Model };

    /// The number of lanes, 1 to `MAX_LANES`.
    fn lanes(&self) -> usize
        ensures { result ≡ lanes_of (model self.now) };

    /// The most orders that a lane may hold, 1 to `MAX_DEPTH`.
    fn depth(&self) -> usize
        ensures { result ≡ (model self.now).depth };

    // `put`, `may` and `out` answer a `bool`, and no `Result`: the project fixes the calls of a bank.

    /// Puts an order last into a lane: true exactly when the lane exists, the order is at most `MAX_ORDER` and not held
    /// there, and the lane holds fewer than the depth. After false all is as before.
    fn put(&mut self, lane: usize, order: u16) -> bool
        ensures answer { result ≡ can_put (model self.old) lane order }
        ensures after { model self.new
            ≡ (if result then after_put (model self.old) lane order else model self.old) };

    /// Whether the lane exists and holds the order, and the rule lets it leave.
    fn may(&self, lane: usize, order: u16) -> bool
        ensures { result ≡ can_leave (model self.now) lane order };

    /// Nothing exactly when the lane is missing or empty; else an order that may leave. Which one is the bank's to choose.
    fn offer(&self, lane: usize) -> Option<u16>
        ensures { Offers (model self.now) lane result };

    /// Takes an order out of a lane: true exactly when it may leave. It is then gone, and the others keep their sequence.
    /// After false all is as before.
    fn out(&mut self, lane: usize, order: u16) -> bool
        ensures answer { result ≡ can_leave (model self.old) lane order }
        ensures after { model self.new
            ≡ (if result then after_out (model self.old) lane order else model self.old) };

    /// Empties every lane.
    fn clear(&mut self)
        ensures { model self.new ≡ cleared (model self.old) };

    ghost sound: { (b : Self) → Sound (model b) };
}
