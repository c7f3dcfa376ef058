ghost use Rattle.bank.specs.Model.{Model, Offers, after_offer};
ghost use Rattle.std.specs.Prelude.{◌≡◌};

use crate::bank::Bank;

/// Takes out of a lane the order that the bank offers there, in one. Nothing exactly when the lane is missing or empty, and
/// then all is as before.
pub fn draw_from<B: Bank>(bank: &mut B, lane: usize) -> Option<u16>
    ensures offered { Offers (B.Bank.model bank.old) lane result }
    ensures after { B.Bank.model bank.new ≡ after_offer (B.Bank.model bank.old) lane result }
{
    let order = bank.offer(lane)?;
    bank.out(lane, order);
    Some(order)
}
