ghost use Rattle.std.specs.Prelude.{◌≡◌, ◌<◌, ◌≤◌, true, [], ◌∷◌, ◌++◌, length};
ghost use Rattle.bank.specs.Model.{max_depth};
ghost use Rattle.bank.specs.Orders.{proper, without};

use crate::orders::place_of;
use arrayvec::ArrayVec;
use bank::limits::MAX_DEPTH;
use std::marker::Model;

/// One lane: the orders that it holds, from oldest to newest.
#[derive(Drop)]
pub(crate) struct Lane {
    held: ArrayVec<u16, MAX_DEPTH>,
    ghost short: { length held.items ≤ max_depth },
}

impl Model for Lane {
    ghost use Rattle.std.specs.Prelude.{ℕ, List};

    ghost Value = { List ℕ };

    ghost view = { λ lane. lane.held.items };
}

impl Default for Lane {
    ghost is_default = { λ lane. lane ≡ [] };

    fn default() -> Lane {
        Lane {
            held: ArrayVec::new(),
        }
    }
}

impl Lane {
    /// The orders that the lane holds, from oldest to newest.
    pub(crate) fn orders(&self) -> &[u16]
        ensures value { result.now ≡ self.now }
        ensures short { length result.now ≤ max_depth }
    {
        self.held.as_slice()
    }

    /// Puts an order last.
    pub(crate) fn push(&mut self, order: u16)
        requires { length self.old < max_depth }
        ensures { self.new ≡ self.old ++ order ∷ [] }
    {
        self.held.push(order);
    }

    /// Takes an order out, if the lane holds it; the others keep their sequence.
    pub(crate) fn remove(&mut self, order: u16)
        requires { proper self.old ≡ true }
        ensures { self.new ≡ without self.old order }
    {
        if let Some(place) = place_of(self.orders(), order) {
            self.held.remove(place);
        }
    }

    /// Takes every order out.
    pub(crate) fn clear(&mut self)
        ensures { self.new ≡ [] }
    {
        self.held.clear();
    }
}
