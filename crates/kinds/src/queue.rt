ghost use Rattle.bank.specs.Rules.{only_oldest};

use crate::array::ArrayBank;
use crate::kind::Kind;
use crate::orders::oldest;

/// A queue: a bank in which only the oldest order of a lane may leave.
pub type Queue = ArrayBank<Oldest>;

/// The kind of a queue's lanes.
#[derive(Clone, Copy, Debug, Default, PartialEq, Eq, Hash)]
pub struct Oldest;

impl Kind for Oldest {
    ghost rule = { λ _. only_oldest };

    fn allows(&self, held: &[u16], order: u16) -> bool {
        oldest(held) == Some(order)
    }

    fn pick(&self, held: &[u16]) -> Option<u16> {
        oldest(held)
    }
}
