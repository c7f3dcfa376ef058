//! The range check: whether a record is within the limits.
//!
//! What a record holds is tried in the sequence of its file, and a fault is told at the bit where the field would stand. So
//! the functions that try fields are told the bit at which their part of the file begins, and give the bit after that part.
//! They ask that the bit is below a power of two, so that no sum can wrap; a type with that bound would have it shown at each
//! sum all the same, and so would one for the number of stations or of events. What a check gives (`Checks`) is a relation to
//! what it was given, which no type can have.
ghost use Rattle.std.specs.Prelude.{◌≡◌, ℕ, ◌+◌, ◌*◌, ◌^◌, ◌<◌, ◌≤◌, List, [], ◌∷◌, length, take, drop, Ok, Err, MatchResult, IsTrue, All, true, ◌↔◌};
ghost use Rattle.bits.specs.Widths.{bits_of};
ghost use Rattle.recording.specs.Faults.{field_told};
ghost use Rattle.recording.specs.Layout.{Field, entry_fields, event_fields, header_fields, lineup_fields, max_bits, record_fields, span};
ghost use Rattle.recording.specs.Ranges.{Checks, Outside, Tried, between, entry_tries, event_tries, header_tries, lineup_tries, lineups_tries, many_tries, tried, try_all, used_tries};
ghost use Rattle.recording.specs.Record.{Limits, all_entries, max_entries, max_events, max_stations, no_event, parts, total, used_lengths};
ghost use Rattle.std.specs.List.{flat_map};

use crate::fault::FieldFault;
use crate::items::{Entries, Events};
use crate::layout::{
    CODE, COUNT, EDITION, ENTRY, FieldKind, KIND, LENGTH, ORDER, STATION, STATIONS,
};
use crate::range::ranged;
use crate::record::{ALL_ENTRIES, Event, Recording};

/// What is still to be tried: the bit of the file at which it begins, and the entries that are left.
// `check_lineup` takes the two fields apart, since `check_lineups` begins with a bit and an array.
#[derive(Clone, Copy)]
struct Rest<'a> {
    bit: usize,
    entries: &'a [u16],
}

/// Tries a field.
#[tactic(auto, unfolding(crate::specs::Ranges::try_all, crate::specs::Ranges::ranged))]
fn check_field(kind: FieldKind, bit: usize, value: u16) -> Result<usize, FieldFault>
    requires { bit < 2 ^ 61 }
    ensures { Checks result (tried bit (between kind.low kind.high) value ∷ []) (λ end. (end ≡ bit + bits_of kind.width)
        × (kind.low ≤ value) × (value ≤ kind.high)) }
{
    ranged(bit, kind.low, kind.high, value)?;
    Ok(bit + kind.width.bits())
}

/// Tries the fields before the events, from the first bit on.
#[tactic(auto, using(crate::proofs::Tries::edition_in), unfolding(crate::specs::Ranges::try_all, crate::specs::Ranges::ranged, crate::specs::Layout::span))]
fn check_header(recording: &Recording) -> Result<usize, FieldFault>
    ensures { Checks result (header_tries recording.now) (λ end. (end ≡ span (header_fields recording.now))
        × (1 ≤ recording.now.stations) × (recording.now.stations ≤ max_stations) × (recording.now.count ≤ max_events)) }
{
    let bit = check_field(CODE, EDITION.width.bits(), recording.code)?;
    let bit = check_field(STATIONS, bit, recording.stations)?;
    check_field(COUNT, bit, recording.count)
}

/// How items of one kind are tried, which a file holds one after the other.
trait Checkable {
    type Item;

    /// What is tried of an item whose fields stand from a bit on.
    ghost tries: { Self → ℕ → Self.Item → List Tried };

    ghost fields: { Self.Item → List Field };

    /// No item has more bits than these.
    ghost most: { ℕ };

    /// Tries an item.
    fn check_one(&self, item: &Self::Item, bit: usize) -> Result<usize, FieldFault>
        requires { bit < 2 ^ 60 }
        ensures { Checks result (tries self.now bit item.now)
            (λ end. (end ≡ bit + span (fields item.now)) × (end ≤ bit + most)) };

    /// Tries items.
    #[tactic(auto, using(crate::proofs::Tries::item_steps))]
    fn check_all(&self, items: &[Self::Item], bit: usize) -> Result<usize, FieldFault>
        requires { bit + most * length items.now < 2 ^ 60 }
        ensures { Checks result (many_tries (tries self.now) fields bit items.now)
            (λ end. (end ≡ bit + span (flat_map fields items.now)) × (end ≤ bit + most * length items.now)) }
    {
        let mut end = bit;
        for item in items {
            end = self.check_one(item, end)?;
        }
        Ok(end)
    }
}

impl Checkable for Events {
    type Item = Event;

    ghost tries = { λ events. event_tries events.stations };

    ghost fields = { event_fields };

    ghost most = { 18 };

    #[tactic(auto, using(crate::proofs::Tries::kind_in), unfolding(crate::specs::Ranges::event_tries, crate::specs::Layout::event_fields, crate::specs::Ranges::try_all, crate::specs::Ranges::ranged, crate::specs::Layout::span))]
    fn check_one(&self, event: &Event, bit: usize) -> Result<usize, FieldFault> {
        let station = FieldKind {
            high: self.stations.saturating_sub(1),
            ..STATION
        };
        let end = check_field(station, bit + KIND.width.bits(), event.station)?;
        if event.kind.carries_order() {
            check_field(ORDER, end, event.order)
        } else {
            ranged(bit, 0, 0, event.order)?;
            Ok(end)
        }
    }
}

impl Checkable for Entries {
    type Item = u16;

    ghost tries = { λ _. entry_tries };

    ghost fields = { entry_fields };

    ghost most = { 9 };

    #[tactic(auto, unfolding(crate::specs::Ranges::try_all, crate::specs::Ranges::ranged, crate::specs::Layout::span))]
    fn check_one(&self, entry: &u16, bit: usize) -> Result<usize, FieldFault> {
        check_field(ENTRY, bit, *entry)
    }
}

/// Tries a line-up, which is the first so many of the entries.
#[tactic(auto, unfolding(crate::specs::Ranges::lineup_tries, crate::specs::Layout::lineup_fields, crate::specs::Ranges::try_all, crate::specs::Ranges::ranged, crate::specs::Layout::span))]
fn check_lineup(count: u16, entries: &[u16], bit: usize) -> Result<Rest<'_>, FieldFault>
    requires room { max_entries ≤ length entries.now }
    requires countable { bit < 2 ^ 58 }
    ensures { Checks result (lineup_tries bit count entries.now)
        (λ rest. (rest.bit ≡ bit + span (lineup_fields (take count entries.now)))
        × (rest.entries.now ≡ drop count entries.now)
        × (count ≤ max_entries) × (rest.bit ≤ bit + (10 + 9 * max_entries))) }
{
    let bit = check_field(LENGTH, bit, count)?;
    let (lineup, entries) = entries.split_at(usize::from(count));
    let bit = Entries.check_all(lineup, bit)?;
    Ok(Rest { bit, entries })
}

/// Tries line-ups of these lengths, one after the other.
// Lengths and entries are two parameters, as a record has them: an iterator over both would have to say that the entries suffice.
#[tactic(auto, using(crate::proofs::Tries::lineup_steps))]
fn check_lineups<'a>(
    lengths: &[u16],
    entries: &'a [u16; ALL_ENTRIES],
    bit: usize,
) -> Result<Rest<'a>, FieldFault>
    requires few { length lengths.now ≤ max_stations }
    requires countable { bit < 2 ^ 57 }
    ensures { Checks result (lineups_tries bit lengths.now entries.now)
        (λ rest. (rest.bit ≡ bit + span (flat_map lineup_fields (parts lengths.now entries.now)))
        × (rest.entries.now ≡ drop (total lengths.now) entries.now)
        × (rest.bit ≤ bit + max_stations * (10 + 9 * max_entries))) }
{
    let mut rest = Rest { bit, entries };
    for length in lengths {
        rest = check_lineup(*length, rest.entries, rest.bit)?;
    }
    Ok(rest)
}

/// Whether all items are the same as one.
fn all_are<T: PartialEq>(items: &[T], one: &T) -> bool
    ensures { IsTrue result ↔ All (λ item. T.eq item one.now ≡ true) items.now }
{
    items.iter().all(|item| item == one)
}

/// Whether events are zero throughout.
#[tactic(auto, using(crate::proofs::Checks::zero_event_steps))]
fn are_zero(events: &[Event]) -> bool
    ensures { IsTrue result ↔ All (λ event. event ≡ no_event) events.now }
{
    all_are(events, &Event::ZERO)
}

/// Tries the fields, in the sequence of the file.
#[tactic(auto, using(crate::proofs::Checks::used_steps), unfolding(crate::specs::Layout::span))]
fn check_used(recording: &Recording) -> Result<Rest<'_>, FieldFault>
    ensures { MatchResult result
        (λ rest. (try_all (used_tries recording.now) ≡ Ok tt)
        × (rest.bit ≡ span (record_fields recording.now))
        × (rest.entries.now ≡ drop (total (used_lengths recording.now)) recording.now.entries)
        × (rest.bit ≤ max_bits))
        (λ e. Outside recording.now (field_told e)) }
{
    let bit = check_header(recording)?;
    let stations = recording.stations;
    let events = &recording.events[..usize::from(recording.count)];
    let bit = Events { stations }.check_all(events, bit)?;
    let lengths = &recording.lengths[..usize::from(stations)];
    check_lineups(lengths, &recording.entries, bit)
}

/// Tries the places that are not in use, after the fields.
#[tactic(auto, using(crate::proofs::Checks::unused_steps))]
fn check_unused(recording: &Recording, rest: Rest) -> Result<(), FieldFault>
    requires used { try_all (used_tries recording.now) ≡ Ok tt }
    requires bit { rest.bit ≡ span (record_fields recording.now) }
    requires entries { rest.entries.now ≡ drop (total (used_lengths recording.now)) recording.now.entries }
    ensures { MatchResult result
        (λ _. Limits recording.now)
        (λ e. Outside recording.now (field_told e)) }
{
    let Rest { bit, entries } = rest;
    let events = &recording.events[usize::from(recording.count)..];
    let lengths = &recording.lengths[usize::from(recording.stations)..];
    if are_zero(events) && all_are(lengths, &0) && all_are(entries, &0) {
        Ok(())
    } else {
        Err(FieldFault::Range { bit })
    }
}

/// Checks that a record is within the limits, and tells how many bits its fields have in a file. What is outside is told at
/// the bit where it would stand; an order that its event does not carry, at the kind of that event; a place that is not in
/// use and not zero, last of all, at the bit after the last entry.
pub fn check(recording: &Recording) -> Result<usize, FieldFault>
    ensures { MatchResult result
        (λ bits. Limits recording.now × (bits ≡ span (record_fields recording.now)) × (bits ≤ max_bits))
        (λ e. Outside recording.now (field_told e)) }
{
    let rest = check_used(recording)?;
    check_unused(recording, rest)?;
    Ok(rest.bit)
}
