//! The reader of recordings: a file's bytes into a record.
//!
//! The functions that read fields ask that the cursor's place is below a power of two that leaves room for all that they
//! read, so that no sum of places can wrap; no type has that bound, since the cursor is that of `bits` and reaches further. Most
//! of them ensure how far they move the cursor at the most (`moved`), and all that their result is what the definition of that
//! part of a file gives (`reading`): what a call did to its cursor is a relation, and no type can have it. `read` starts at bit 0.
#![tactic(auto)]

pub mod fault;

ghost use Rattle.std.specs.Prelude.{◌≡◌, ℕ, ◌+◌, ◌*◌, ◌^◌, ◌<◌, ◌≤◌, List, length, take, drop, IfOk, MatchResult};
ghost use Rattle.bits.specs.Widths.{bits_of};
ghost use Rattle.reader.specs.Faults.{read_told};
ghost use Rattle.recording.specs.Layout.{gap};
ghost use Rattle.reader.specs.Reading.{Faulty, Gives, Holds, Moved, Reading, decode, entry_at, event_at, field_at, filling_at, header_at, item_bits, lineup_at, lineup_bits, many_at};
ghost use Rattle.recording.specs.Record.{all_zero, max_entries, max_events, max_kind, max_stations, number_of, parts, total};

use crate::fault::ReadFault;
use bits::cursor::BitCursor;
use recording::items::{Entries, Events};
use recording::layout::{
    CODE, COUNT, EDITION, ENTRY, FILLING, FieldKind, KIND, LENGTH, ORDER, STATION, STATIONS,
};
use recording::range::ranged;
use recording::record::{Event, EventKind, Recording};

/// The fields before the events, but for the edition, which is 1.
// No ghost fields for its ranges: `header_of` of the specification makes a header of any three numbers.
#[derive(Clone, Copy)]
struct Header {
    // A number and no `LaneKind`, since it goes into the record as it is.
    code: u16,
    stations: u16,
    count: u16,
}

/// The next field, a number of that kind.
#[tactic(auto, unfolding(crate::specs::Reading::field_at, recording::specs::Ranges::ranged))]
fn field(cursor: &mut BitCursor, kind: FieldKind) -> Result<u16, ReadFault>
    requires { cursor.old.place < 2 ^ 60 }
    ensures moved { Moved cursor.old cursor.new (bits_of kind.width) }
    ensures reading { Gives (λ v. (v, cursor.new.place)) result
        (field_at cursor.old.bytes.now cursor.old.place (bits_of kind.width) kind.low kind.high) }
    ensures range { IfOk result (λ v. (kind.low ≤ v) × (v ≤ kind.high)) }
{
    let bit = cursor.place();
    let taken = cursor.take(kind.width)?;
    Ok(ranged(bit, kind.low, kind.high, taken)?)
}

/// The edition, the code, the stations and the event count.
#[tactic(auto, unfolding(crate::specs::Reading::header_at))]
fn read_header(cursor: &mut BitCursor) -> Result<Header, ReadFault>
    requires { cursor.old.place < 2 ^ 59 }
    ensures moved { Moved cursor.old cursor.new 23 }
    ensures reading { Gives (λ h. (h, cursor.new.place)) result (header_at cursor.old.bytes.now cursor.old.place) }
    ensures range { IfOk result (λ h. (h.stations ≤ max_stations) × (h.count ≤ max_events)) }
{
    field(cursor, EDITION)?;
    let code = field(cursor, CODE)?;
    let stations = field(cursor, STATIONS)?;
    let count = field(cursor, COUNT)?;
    Ok(Header {
        code,
        stations,
        count,
    })
}

/// The next field, the kind of an event.
#[tactic(auto, unfolding(crate::specs::Reading::field_at, recording::specs::Ranges::ranged))]
fn read_kind(cursor: &mut BitCursor) -> Result<EventKind, ReadFault>
    requires { cursor.old.place < 2 ^ 60 }
    ensures moved { Moved cursor.old cursor.new 3 }
    ensures reading { Gives (λ kind. (number_of kind, cursor.new.place)) result
        (field_at cursor.old.bytes.now cursor.old.place 3 0 max_kind) }
{
    let number = field(cursor, KIND)?;
    Ok(EventKind::try_from(number).unwrap())
}

/// How items of one kind are read, which a file holds one after the other.
trait Readable {
    type Item: Copy;

    /// The item that stands in a file's bytes from a bit on.
    ghost at: { Self → List ℕ → ℕ → Reading Self.Item };

    /// The next item.
    fn read_one(&self, cursor: &mut BitCursor) -> Result<Self::Item, ReadFault>
        requires { cursor.old.place < 2 ^ 59 }
        ensures moved { Moved cursor.old cursor.new item_bits }
        ensures reading { Gives (λ v. (v, cursor.new.place)) result
            (at self.now cursor.old.bytes.now cursor.old.place) };

    /// As many items as there are slots.
    #[tactic(auto, using(crate::proofs::Many::many_steps))]
    fn read_all(&self, cursor: &mut BitCursor, slots: &mut [Self::Item]) -> Result<(), ReadFault>
        requires few { length slots.old ≤ max_events }
        requires countable { cursor.old.place < 2 ^ 58 }
        ensures moved { Moved cursor.old cursor.new (item_bits * length slots.old) }
        ensures reading { Gives (λ _. (slots.new, cursor.new.place)) result
            (many_at (at self.now cursor.old.bytes.now) (length slots.old) cursor.old.place) }
    {
        for slot in slots.iter_mut() {
            *slot = self.read_one(cursor)?;
        }
        Ok(())
    }
}

impl Readable for Events {
    type Item = Event;

    ghost at = { λ s bytes. event_at bytes s.stations };

    #[tactic(auto, using(crate::proofs::Stands::kind_code), unfolding(crate::specs::Reading::event_at))]
    fn read_one(&self, cursor: &mut BitCursor) -> Result<Event, ReadFault> {
        let kind = read_kind(cursor)?;
        let stations = FieldKind {
            high: self.stations.saturating_sub(1),
            ..STATION
        };
        let station = field(cursor, stations)?;
        let order = if kind.carries_order() {
            field(cursor, ORDER)?
        } else {
            0
        };
        Ok(Event {
            kind,
            station,
            order,
        })
    }
}

impl Readable for Entries {
    type Item = u16;

    ghost at = { λ _ bytes. entry_at bytes };

    fn read_one(&self, cursor: &mut BitCursor) -> Result<u16, ReadFault> {
        field(cursor, ENTRY)
    }
}

/// The next line-up, into the front of the slots; tells its length.
#[tactic(auto, unfolding(crate::specs::Reading::lineup_at))]
fn read_lineup(cursor: &mut BitCursor, slots: &mut [u16]) -> Result<u16, ReadFault>
    requires room { max_entries ≤ length slots.old }
    requires countable { cursor.old.place < 2 ^ 57 }
    ensures moved { Moved cursor.old cursor.new lineup_bits }
    ensures reading { Gives (λ n. (take n slots.new, cursor.new.place)) result (lineup_at cursor.old.bytes.now cursor.old.place) }
    ensures rest { IfOk result (λ n. (n ≤ max_entries) × (drop n slots.new ≡ drop n slots.old)) }
{
    let length = field(cursor, LENGTH)?;
    Entries.read_all(cursor, &mut slots[..usize::from(length)])?;
    Ok(length)
}

/// A line-up for each length, one after the other into the entries.
// Lengths and entries are two parameters, as a record has them.
#[tactic(auto, using(crate::proofs::Many::many_steps), unfolding(recording::specs::Record::parts, recording::specs::Record::total))]
fn read_lineups(
    cursor: &mut BitCursor,
    lengths: &mut [u16],
    entries: &mut [u16],
) -> Result<(), ReadFault>
    requires room { max_entries * length lengths.old ≤ length entries.old }
    requires countable { cursor.old.place + lineup_bits * length lengths.old < 2 ^ 57 }
    ensures moved { Moved cursor.old cursor.new (lineup_bits * length lengths.old) }
    ensures reading { Gives (λ _. (parts lengths.new entries.new, cursor.new.place)) result
        (many_at (lineup_at cursor.old.bytes.now) (length lengths.old) cursor.old.place) }
    ensures few { IfOk result (λ _. total lengths.new ≤ max_entries * length lengths.old) }
    ensures rest { IfOk result (λ _. drop (total lengths.new) entries.new ≡ drop (total lengths.new) entries.old) }
{
    // Not a `&mut` of the entries that each turn shortens: after such a loop the proof knows nothing of them. And no
    // recursion, which keeps the cursor in memory: so line-ups took more than twice the time.
    let mut start = 0;
    for length in lengths.iter_mut() {
        *length = read_lineup(cursor, &mut entries[start..])?;
        start += usize::from(*length);
    }
    Ok(())
}

/// The filling bits, and no byte after them.
#[tactic(auto, using(crate::proofs::Filling::filling_steps))]
fn read_filling(cursor: &mut BitCursor) -> Result<(), ReadFault>
    requires { cursor.old.place < 2 ^ 59 }
    ensures { Gives (λ _. cursor.new.place) result (filling_at cursor.old.bytes.now cursor.old.place (gap cursor.old.place)) }
{
    while cursor.place() % 8 != 0 {
        let bit = cursor.place();
        let filler = cursor.take(FILLING.width)?;
        ranged(bit, FILLING.low, FILLING.high, filler).map_err(|_| ReadFault::Filling { bit })?;
    }
    if !cursor.at_end() {
        return Err(ReadFault::Filling {
            bit: cursor.place(),
        });
    }
    Ok(())
}

/// The fields of a recording, into a record that is zero throughout.
#[tactic(auto, using(crate::proofs::Slots::slots_steps), unfolding(crate::specs::Reading::decode))]
fn read_recording(cursor: &mut BitCursor, recording: &mut Recording) -> Result<(), ReadFault>
    requires start { cursor.old.place ≡ 0 }
    requires zero { recording.old ≡ all_zero }
    ensures { Gives (λ _. recording.new) result (decode cursor.old.bytes.now) }
{
    let header = read_header(cursor)?;
    let stations = header.stations;
    recording.code = header.code;
    recording.stations = stations;
    recording.count = header.count;
    let events = &mut recording.events[..usize::from(header.count)];
    Events { stations }.read_all(cursor, events)?;
    // `&mut recording.lengths[..usize::from(stations)]`, lent beside another field, gets no generated proof.
    let lengths = &mut recording.lengths;
    let (used, _) = lengths.split_at_mut(usize::from(stations));
    read_lineups(cursor, used, &mut recording.entries)?;
    read_filling(cursor)
}

/// The whole file, into a record that is first made zero throughout.
fn fill(bytes: &[u8], recording: &mut Recording) -> Result<(), ReadFault>
    ensures { MatchResult result
        (λ _. Holds bytes.now recording.new)
        (λ e. Faulty bytes.now (read_told e)) }
{
    *recording = Recording::zero();
    read_recording(&mut BitCursor::new(bytes), recording)
}

/// Reads a file into a record. A refused reading leaves the record zero throughout.
pub fn read(bytes: &[u8], recording: &mut Recording) -> Result<(), ReadFault>
    ensures { MatchResult result
        (λ _. Holds bytes.now recording.new)
        (λ e. Faulty bytes.now (read_told e) × (recording.new ≡ all_zero)) }
{
    let result = fill(bytes, recording);
    if result.is_err() {
        *recording = Recording::zero();
    }
    result
}
