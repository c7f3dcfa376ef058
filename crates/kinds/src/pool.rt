ghost use Rattle.bank.specs.Rules.{every_held};

use crate::array::ArrayBank;
use crate::kind::Kind;
use crate::orders::oldest;

/// A pool: a bank in which every order of a lane may leave.
pub type Pool = ArrayBank<Any>;

/// The kind of a pool's lanes. The oldest order is offered.
#[derive(Clone, Copy, Debug, Default, PartialEq, Eq, Hash)]
pub struct Any;

impl Kind for Any {
    ghost rule = { λ _. every_held };

    fn allows(&self, _held: &[u16], _order: u16) -> bool {
        true
    }

    fn pick(&self, held: &[u16]) -> Option<u16> {
        oldest(held)
    }
}
