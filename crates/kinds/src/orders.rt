//! Questions about the orders that a lane holds, which are given from oldest to newest.
ghost use Rattle.bank.specs.Orders.{holds as is_held};
ghost use Rattle.bank.specs.Rules.{newest_of, oldest_of, only_newest, only_oldest};
ghost use Rattle.kinds.specs.Picks.{Picks};
ghost use Rattle.std.specs.List.{position};
ghost use Rattle.std.specs.Prelude.{◌≡◌, ◌==◌};

/// Whether an order is held.
pub(crate) fn holds(held: &[u16], order: u16) -> bool
    ensures { result ≡ is_held held.now order }
{
    held.contains(&order)
}

/// Where an order stands, if it is held.
pub(crate) fn place_of(held: &[u16], order: u16) -> Option<usize>
    ensures { result ≡ position (λ other. other == order) held.now }
{
    held.iter().position(|other| *other == order)
}

/// The oldest order.
pub(crate) fn oldest(held: &[u16]) -> Option<u16>
    ensures value { result ≡ oldest_of held.now }
    ensures picks { Picks only_oldest held.now result }
{
    held.first().copied()
}

/// The newest order.
// Apart from `oldest`: one function for both would take the end and a `match` on it.
pub(crate) fn newest(held: &[u16]) -> Option<u16>
    ensures value { result ≡ newest_of held.now }
    ensures picks { Picks only_newest held.now result }
{
    held.last().copied()
}
