ghost use Rattle.std.specs.Prelude.{◌≡◌, ◌<◌, ◌≤◌, false, [], length, replicate, if◌then◌else◌};
ghost use Rattle.bank.specs.Model.{lane_of, max_depth, max_lanes, none_held, put_in, taken_out, takes};
ghost use Rattle.bank.specs.Orders.{holds as is_held};
ghost use Rattle.kinds.specs.Tables.{IsTable};
ghost use Rattle.recording.specs.Record.{max_order};

use crate::lane::Lane;
use crate::orders::holds;
use arrayvec::ArrayVec;
use bank::limits::{MAX_DEPTH, MAX_LANES};
use recording::record::MAX_ORDER;

/// The lanes of a bank, at least one.
#[derive(Drop)]
pub(crate) struct Table {
    lanes: ArrayVec<Lane, MAX_LANES>,
    // Not the invariant of a model: the law of `Bank` is proved from this field, which a model's value would not show.
    ghost sound: { IsTable lanes.items },
}

impl Table {
    /// So many empty lanes.
    pub(crate) fn empty(count: usize) -> Table
        requires some { 1 ≤ count }
        requires few { count ≤ max_lanes }
        ensures { result.lanes.items ≡ replicate count [] }
    {
        let mut lanes = ArrayVec::new();
        for _ in 0..count {
            lanes.push(Lane::default());
        }
        Table { lanes }
    }

    /// How many lanes there are.
    pub(crate) fn count(&self) -> usize
        ensures count { result ≡ length self.now.lanes.items }
        ensures some { 1 ≤ result }
        ensures few { result ≤ max_lanes }
    {
        self.lanes.len()
    }

    /// The orders that a lane holds, from oldest to newest; none where there is no such lane.
    pub(crate) fn orders(&self, lane: usize) -> &[u16]
        ensures { result.now ≡ lane_of self.now.lanes.items lane }
    {
        self.lanes.get(lane).map_or(&[], Lane::orders)
    }

    /// Puts an order last into a lane.
    fn push(&mut self, lane: usize, order: u16)
        requires lane { lane < length self.old.lanes.items }
        requires room { length (lane_of self.old.lanes.items lane) < max_depth }
        requires order { order ≤ max_order }
        requires fresh { is_held (lane_of self.old.lanes.items lane) order ≡ false }
        ensures { self.new.lanes.items ≡ put_in self.old.lanes.items lane order }
    {
        self.lanes[lane].push(order);
    }

    /// Puts an order last into a lane, if the lane exists, has room and does not hold it.
    // A `bool`, as the call of a bank answers.
    pub(crate) fn put(&mut self, lane: usize, order: u16) -> bool
        ensures answer { result ≡ takes self.old.lanes.items max_depth lane order }
        ensures after { self.new.lanes.items
            ≡ (if result then put_in self.old.lanes.items lane order else self.old.lanes.items) }
    {
        if lane >= self.count() || order > MAX_ORDER {
            return false;
        }
        let held = self.orders(lane);
        if holds(held, order) || held.len() >= MAX_DEPTH {
            return false;
        }
        self.push(lane, order);
        true
    }

    /// Takes an order out of a lane, if the lane exists and holds it; the others keep their sequence.
    pub(crate) fn remove(&mut self, lane: usize, order: u16)
        ensures { self.new.lanes.items ≡ taken_out self.old.lanes.items lane order }
    {
        if let Some(held) = self.lanes.get_mut(lane) {
            held.remove(order);
        }
    }

    /// Empties every lane.
    pub(crate) fn clear(&mut self)
        ensures { self.new.lanes.items ≡ none_held self.old.lanes.items }
    {
        let count = self.count();
        // By number: so what a table keeps is shown anew after each lane.
        for lane in 0..count {
            self.lanes[lane].clear();
        }
    }

    /// Leaves so many lanes, all empty.
    pub(crate) fn narrow(&mut self, count: usize)
        requires some { 1 ≤ count }
        requires few { count ≤ max_lanes }
        ensures { self.new.lanes.items ≡ replicate count [] }
    {
        self.lanes.truncate(count);
        self.clear();
        for _ in self.count()..count {
            self.lanes.push(Lane::default());
        }
    }
}
