ghost use Rattle.std.specs.Prelude.{◌≡◌, ◌<◌, ◌≤◌, ◌⊎◌, MatchResult};
ghost use Rattle.bank.specs.Model.{empty_bank, max_depth, max_lanes};
ghost use Rattle.kinds.specs.Arrays.{array_model, array_sound};

use crate::fault::BankFault;
use crate::kind::Kind;
use crate::orders::holds;
use crate::table::Table;
use bank::bank::Bank;
use bank::limits;

/// A bank whose lanes lie in arrays of a fixed size, as deep as a bank may be, all of one kind.
#[derive(Drop)]
pub struct ArrayBank<K> {
    table: Table,
    kind: K,
}

impl<K: Kind> Bank for ArrayBank<K> {
    ghost model = { array_model K.Kind.rule };

    ghost sound = { λ b. array_sound K.Kind.rule b };

    fn lanes(&self) -> usize {
        self.table.count()
    }

    fn depth(&self) -> usize {
        limits::MAX_DEPTH
    }

    fn put(&mut self, lane: usize, order: u16) -> bool {
        self.table.put(lane, order)
    }

    fn may(&self, lane: usize, order: u16) -> bool {
        let held = self.table.orders(lane);
        holds(held, order) && self.kind.allows(held, order)
    }

    fn offer(&self, lane: usize) -> Option<u16> {
        self.kind.pick(self.table.orders(lane))
    }

    fn out(&mut self, lane: usize, order: u16) -> bool {
        let leaves = self.may(lane, order);
        if leaves {
            self.table.remove(lane, order);
        }
        leaves
    }

    fn clear(&mut self) {
        self.table.clear();
    }
}

impl<K: Kind + Default> ArrayBank<K> {
    /// A bank with as many lanes as a bank may have, all empty.
    pub fn fresh() -> ArrayBank<K>
        ensures lanes { array_model K.Kind.rule result ≡ empty_bank max_lanes max_depth (K.Kind.rule result.kind) }
        ensures kind { K.Default.is_default result.kind }
    {
        ArrayBank {
            table: Table::empty(limits::MAX_LANES),
            kind: K::default(),
        }
    }
}

impl<K: Kind> ArrayBank<K> {
    /// Leaves so many lanes, all empty, where a bank may have so many. Else a fault, and nothing changes.
    pub fn narrow(&mut self, lanes: usize) -> Result<(), BankFault>
        ensures { MatchResult result
            (λ _. (1 ≤ lanes) × (lanes ≤ max_lanes)
            × (array_model K.Kind.rule self.new ≡ empty_bank lanes max_depth (K.Kind.rule self.old.kind)))
            (λ _. ((lanes < 1) ⊎ (max_lanes < lanes)) × (self.new ≡ self.old)) }
    {
        if lanes < 1 || lanes > limits::MAX_LANES {
            return Err(BankFault::Lanes);
        }
        self.table.narrow(lanes);
        Ok(())
    }
}
