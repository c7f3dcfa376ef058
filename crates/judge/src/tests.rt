//! Files and the lines that are told of them, and records and the files that are written of them.
use super::*;
use bits::told::{Place, Told};
use recording::record::{Event, EventKind};
use std::process::Abort;
use std::test::Fail;
use writer::round_trip::read_then_write;
use writer::write;

/// A post of 5 at the only station, answered, and a draw that gave 5; the line-up names both calls.
const SAMPLE: [u8; 13] = [
    0x11, 0x10, 0x08, 0x00, 0x02, 0xA0, 0x43, 0x00, 0x0A, 0x01, 0x00, 0x00, 0x20,
];

/// Checks that the report on these bytes is that line.
fn tells(rt: &impl Abort, bytes: &[u8], expected: &[u8]) -> Result<(), Fail> {
    let mut recording = Recording::zero();
    let mut line = [0; LONGEST];
    let count = report(judge(bytes, &mut recording), &mut line)?;
    assert_eq!(rt; &line[..count], expected);
    Ok(())
}

#[test]
fn reads_the_sample(rt: HostRuntime) {
    let mut recording = Recording::zero();
    assert!(rt; read(&SAMPLE, &mut recording).is_ok());
    assert!(rt; recording.code == 1 && recording.stations == 1 && recording.count == 4);
    let events = &recording.events;
    assert!(rt; u16::from(events[0].kind) == 0 && events[0].station == 0 && events[0].order == 5);
    assert!(rt; u16::from(events[1].kind) == 2 && events[1].station == 0 && events[1].order == 0);
    assert!(rt; u16::from(events[2].kind) == 1 && events[2].station == 0 && events[2].order == 0);
    assert!(rt; u16::from(events[3].kind) == 3 && events[3].station == 0 && events[3].order == 5);
    assert!(rt;
        recording.lengths[0] == 2 && recording.entries[0] == 0 && recording.entries[1] == 1
    );
}

/// The event of a kind at station 0, with that order.
fn event(kind: EventKind, order: u16) -> Event {
    Event {
        kind,
        station: 0,
        order,
    }
}

/// The recording of the sample.
fn sample() -> Recording {
    let mut recording = Recording::zero();
    recording.code = 1;
    recording.stations = 1;
    recording.count = 4;
    recording.events[0] = event(EventKind::PostCalled, 5);
    recording.events[1] = event(EventKind::PostAnswered, 0);
    recording.events[2] = event(EventKind::DrawCalled, 0);
    recording.events[3] = event(EventKind::DrawAnswered, 5);
    recording.lengths[0] = 2;
    recording.entries[1] = 1;
    recording
}

#[test]
fn writes_the_sample(rt: HostRuntime) -> Result<(), Fail> {
    let mut buffer = [0xFF; 15];
    assert_eq!(rt; write(&sample(), &mut buffer)?, 13);
    assert_eq!(rt; &buffer[..13], SAMPLE.as_slice());
    assert_eq!(rt; buffer[13], 0xFF);
    assert_eq!(rt; buffer[14], 0xFF);
    Ok(())
}

/// What writing into 12 bytes is refused by; they are left as they were.
fn refusal(rt: &impl Abort, recording: &Recording) -> Result<Told, Fail> {
    let mut buffer = [0xFF; 12];
    let Err(fault) = write(recording, &mut buffer) else {
        return Err(Fail::new("it is written"));
    };
    assert_eq!(rt; buffer, [0xFF; 12]);
    Ok(fault.into())
}

/// Checks that a record is refused by 2 at that bit.
fn outside(rt: &impl Abort, recording: &Recording, bit: usize) -> Result<(), Fail> {
    assert_eq!(rt; refusal(rt, recording)?, Told::new(2, Place::AtBit(bit)));
    Ok(())
}

#[test]
fn tells_what_a_record_has_out_of_range(rt: HostRuntime) -> Result<(), Fail> {
    outside(&rt, &Recording::zero(), 8)?;
    let mut recording = sample();
    recording.lengths[7] = 1;
    outside(&rt, &recording, 99)?;
    recording.entries[1] = 512;
    outside(&rt, &recording, 90)?;
    recording.lengths[0] = 513;
    outside(&rt, &recording, 71)?;
    recording.events[1].order = 1;
    outside(&rt, &recording, 41)?;
    recording.events[1].station = 1;
    outside(&rt, &recording, 44)?;
    recording.events[0].order = 4096;
    outside(&rt, &recording, 29)?;
    recording.code = 4;
    outside(&rt, &recording, 4)
}

#[test]
fn tells_how_long_the_file_is(rt: HostRuntime) -> Result<(), Fail> {
    assert_eq!(rt; refusal(&rt, &sample())?, Told::new(17, Place::Needs(13)));
    Ok(())
}

#[test]
fn writes_back_what_it_read(rt: HostRuntime) -> Result<(), Fail> {
    let mut recording = Recording::zero();
    let mut buffer = [0xFF; 13];
    let size = read_then_write(&SAMPLE, &mut recording, &mut buffer)??;
    assert_eq!(rt; size, 13);
    assert_eq!(rt; buffer, SAMPLE);
    Ok(())
}

#[test]
fn tells_where_the_bytes_end(rt: HostRuntime) -> Result<(), Fail> {
    tells(&rt, b"", b"refused 1 bit 0\n")?;
    tells(&rt, &[0x11], b"refused 1 bit 8\n")?;
    tells(&rt, &[0x11, 0x10], b"refused 1 bit 12\n")?;
    tells(&rt, &[0x11, 0x10, 0x02], b"refused 1 bit 23\n")?;
    tells(&rt, &[0x11, 0x10, 0x02, 0x00], b"refused 1 bit 29\n")?;
    tells(&rt, &SAMPLE[0..12], b"refused 1 bit 90\n")
}

#[test]
fn tells_what_is_out_of_range(rt: HostRuntime) -> Result<(), Fail> {
    tells(&rt, &[0x21], b"refused 2 bit 0\n")?;
    tells(&rt, &[0x14], b"refused 2 bit 4\n")?;
    tells(&rt, &[0x11, 0x00], b"refused 2 bit 8\n")?;
    tells(&rt, &[0x11, 0x90], b"refused 2 bit 8\n")?;
    tells(&rt, &[0x11, 0x18, 0x02], b"refused 2 bit 12\n")?;
    tells(&rt, &[0x11, 0x10, 0x03, 0x40], b"refused 2 bit 23\n")?;
    tells(&rt, &[0x11, 0x10, 0x02, 0x48], b"refused 2 bit 26\n")?;
    tells(&rt, &[0x11, 0x10, 0x01, 0x00, 0x80], b"refused 2 bit 23\n")
}

#[test]
fn tells_what_follows_the_last_field(rt: HostRuntime) -> Result<(), Fail> {
    tells(&rt, &[0x11, 0x10, 0x00, 0x00, 0x40], b"refused 3 bit 33\n")?;
    tells(
        &rt,
        &[0x11, 0x10, 0x00, 0x00, 0x01, 0x00],
        b"refused 3 bit 39\n",
    )?;
    tells(
        &rt,
        &[0x11, 0x10, 0x00, 0x00, 0x00, 0x00],
        b"refused 3 bit 40\n",
    )
}

#[test]
fn has_no_lane_for_what_it_read(rt: HostRuntime) -> Result<(), Fail> {
    tells(&rt, &SAMPLE, b"refused 10 station 0 entry 0\n")?;
    tells(
        &rt,
        &[0x10, 0x10, 0x00, 0x00, 0x00],
        b"refused 10 station 0 entry 0\n",
    )
}

/// 1,024 events that carry an order, and eight line-ups of 512 entries; zero but for the header and the lengths.
#[test]
fn reads_the_largest_file(rt: HostRuntime) -> Result<(), Fail> {
    let mut bytes = [0; 6925];
    bytes[0] = 0x11;
    bytes[1] = 0x88;
    bytes[2306] = 0x01;
    bytes[2884] = 0x40;
    bytes[3461] = 0x10;
    bytes[4038] = 0x04;
    bytes[4615] = 0x01;
    bytes[5193] = 0x40;
    bytes[5770] = 0x10;
    bytes[6347] = 0x04;
    let mut recording = Recording::zero();
    assert!(rt; read(&bytes, &mut recording).is_ok());
    assert!(rt; recording.stations == 8 && recording.count == 1024);
    assert!(rt; recording.lengths[0] == 512 && recording.lengths[7] == 512);
    tells(&rt, &bytes[0..6924], b"refused 1 bit 55390\n")
}

#[test]
fn goes_on_after_a_short_read(rt: HostRuntime) -> Result<(), Fail> {
    let mut buffer = [0; 8];
    let first: &[u8] = b"ab";
    let second: &[u8] = b"cd";
    assert_eq!(rt; read_input(&mut first.chain(second), &mut buffer)?, 4);
    assert_eq!(rt; buffer, *b"abcd\0\0\0\0");
    Ok(())
}

#[test]
fn reads_no_more_than_its_limit(rt: HostRuntime) -> Result<(), Fail> {
    let bytes = [7; 9000];
    let mut source: &[u8] = &bytes;
    let mut input = [0; MAX_INPUT];
    assert_eq!(rt; read_input(&mut source, &mut input)?, 8193);
    Ok(())
}
