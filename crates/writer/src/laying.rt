//! What a file holds, laid out as fields that stand one after the other.
//! Counts are widened by `as`: over `usize::from` the searches of `lay_lineups` and `lay_recording` were left open.
#![tactic(auto, using(crate::proofs::Lays::wrote_more), unfolding(recording::specs::Layout::event_fields, recording::specs::Layout::lineup_fields, recording::specs::Layout::span))]

ghost use Rattle.std.specs.Prelude.{◌≡◌, ◌≤◌, List, length};
ghost use Rattle.std.specs.List.{flat_map};
ghost use Rattle.recording.specs.Layout.{Field, IsFile, entry_fields, event_fields, header_fields, lineup_fields, record_fields};
ghost use Rattle.recording.specs.Record.{Limits, parts, total};
ghost use Rattle.writer.specs.Laying.{LaidOver, Ready};
ghost use Rattle.writer.specs.Writing.{file_size, max_size};

use crate::bit_writer::BitWriter;
use recording::layout::{CODE, COUNT, EDITION, ENTRY, KIND, LENGTH, ORDER, STATION, STATIONS};
use recording::record::{Event, Recording};

/// An item that is laid out as fields.
trait Lay {
    /// The item's fields, in the sequence of the file.
    ghost fields: { Self → List Field };

    /// Lays out the item's fields, for which there is room.
    fn lay(&self, into: &mut BitWriter)
        requires { Ready into.old (fields self.now) }
        ensures { LaidOver into.old into.new (fields self.now) };
}

/// An event: its kind, its station, and the order that it carries.
impl Lay for Event {
    ghost fields = { event_fields };

    fn lay(&self, into: &mut BitWriter) {
        into.put(KIND.width, u16::from(self.kind));
        into.put(STATION.width, self.station);
        if self.kind.carries_order() {
            into.put(ORDER.width, self.order);
        }
    }
}

/// An entry: the number of a call.
impl Lay for u16 {
    ghost fields = { entry_fields };

    fn lay(&self, into: &mut BitWriter) {
        into.put(ENTRY.width, *self);
    }
}

/// Lays out items, one after the other.
fn lay_all<T: Lay>(items: &[T], into: &mut BitWriter)
    requires { Ready into.old (flat_map T.fields items.now) }
    ensures { LaidOver into.old into.new (flat_map T.fields items.now) }
{
    for item in items {
        item.lay(into);
    }
}

/// Lays out edition, code, stations and event count.
fn lay_header(recording: &Recording, into: &mut BitWriter)
    requires { Ready into.old (header_fields recording.now) }
    ensures { LaidOver into.old into.new (header_fields recording.now) }
{
    into.put(EDITION.width, EDITION.low);
    into.put(CODE.width, recording.code);
    into.put(STATIONS.width, recording.stations);
    into.put(COUNT.width, recording.count);
}

/// Lays out a line-up: its length, then its entries.
fn lay_lineup(lineup: &[u16], into: &mut BitWriter)
    requires { Ready into.old (lineup_fields lineup.now) }
    ensures { LaidOver into.old into.new (lineup_fields lineup.now) }
{
    into.put(LENGTH.width, lineup.len() as u16);
    lay_all(lineup, into);
}

/// Lays out line-ups of these lengths, which stand one after the other in the entries.
// Lengths and entries are two parameters, as a record has them: an iterator over both would have to say that the entries suffice.
fn lay_lineups(lengths: &[u16], entries: &[u16], into: &mut BitWriter)
    requires ready { Ready into.old (flat_map lineup_fields (parts lengths.now entries.now)) }
    requires there { total lengths.now ≤ length entries.now }
    ensures { LaidOver into.old into.new (flat_map lineup_fields (parts lengths.now entries.now)) }
{
    let mut rest = entries;
    for length in lengths {
        let (lineup, after) = rest.split_at(*length as usize);
        lay_lineup(lineup, into);
        rest = after;
    }
}

/// Lays out a recording: what stands before the events, the events, and the line-ups.
// The limits are asked for, here, in `lay_file` and in `lay_front`, and there the size: `check` answers a number only, so a type
// that has the limits would be made in `write` and opened again at once.
fn lay_recording(recording: &Recording, into: &mut BitWriter)
    requires limits { Limits recording.now }
    requires ready { Ready into.old (record_fields recording.now) }
    ensures { LaidOver into.old into.new (record_fields recording.now) }
{
    lay_header(recording, into);
    lay_all(&recording.events[..recording.count as usize], into);
    let lengths = &recording.lengths[..recording.stations as usize];
    lay_lineups(lengths, &recording.entries, into);
}

/// Lays out the file of a recording, which fills the bytes.
pub(crate) fn lay_file(recording: &Recording, bytes: &mut [u8])
    requires limits { Limits recording.now }
    requires whole { length bytes.old ≡ file_size recording.now }
    requires small { file_size recording.now ≤ max_size }
    ensures { IsFile bytes.new recording.now }
{
    let mut into = BitWriter::new(bytes);
    lay_recording(recording, &mut into);
    into.fill();
}
