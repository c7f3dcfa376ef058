ghost use Rattle.bank.specs.Rules.{only_newest};

use crate::array::ArrayBank;
use crate::kind::Kind;
use crate::orders::newest;

/// A stack: a bank in which only the newest order of a lane may leave.
pub type Stack = ArrayBank<Newest>;

/// The kind of a stack's lanes.
// Apart from `Oldest`, which differs in the end alone: one type for both would take the end as a `const` and a `match` on it in
// each of the three members, where a name says it.
#[derive(Clone, Copy, Debug, Default, PartialEq, Eq, Hash)]
pub struct Newest;

impl Kind for Newest {
    ghost rule = { λ _. only_newest };

    fn allows(&self, held: &[u16], order: u16) -> bool {
        newest(held) == Some(order)
    }

    fn pick(&self, held: &[u16]) -> Option<u16> {
        newest(held)
    }
}
