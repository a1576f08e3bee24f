#![tactic(auto)]

// The calls of both link ends on records as bytes, a row for each. Between rows the program keeps the sender's record,
// the receiver's and the receiver's buffer. A row's word goes by its first letter; then come bytes, and then numbers:
// how many bytes of the record, of the buffer and of room for a frame the call is lent.
//
//     keep BYTES                           both records are these bytes, and the buffer is fresh
//     make NAMES RECORD KEY PAIR           makes both ends, from a key and a pair name of so many bytes; the buffer is
//                                          fresh
//     begin SOUND RECORD
//     send SOUND RECORD ROOM
//     hear FRAME RECORD                    the sender hears
//     receive FRAME RECORD BUFFER ROOM     the receiver hears
//
// Behind a row stands the number that the call answers and what it changed of the record; for `make`, of each record.
// Then, for `receive`, how much of the buffer was lent and what changed there; and at last, for both calls that write a
// frame, the length that the call tells, which is 99 before it, and what it wrote.
ghost use Rattle.std.specs.Prelude.{◌≡◌, length};

use refusals::Refusal;
use std::io;

// What a length is before a call, to see whether the call tells one.
const UNTOLD: usize = 99;

// There is room for 1,024 bytes of anything but the sound, and rows lend no more.
const MOST: usize = 1024;

// More bytes than a row spells.
const ROOM: usize = 65536;

const MOST_ROWS: usize = 1000;

// What is kept between rows.
#[derive(Clone, Copy)]
struct Ends {
    sender: [u8; MOST],
    receiver: [u8; MOST],
    buffer: [u8; MOST],
}

// A row's numbers.
#[derive(Clone, Copy)]
struct Lent {
    record: usize,
    first: usize,
    second: usize,
}

fn fresh() -> [u8; 1024]
    ensures { 1024 ≡ length result }
{
    [test_kit::UNTOUCHED; MOST]
}

// As many bytes of a run as a row lends.
fn front(run: &mut [u8; MOST], size: usize) -> &mut [u8] {
    &mut run[..size % (MOST + 1)]
}

// From where to where two runs differ, if they do.
fn difference(before: &[u8; MOST], after: &[u8; MOST]) -> Option<(usize, usize)> {
    let from = before
        .iter()
        .zip(after)
        .position(|(old, new)| *old != *new)?;
    let last = before
        .iter()
        .zip(after)
        .rposition(|(old, new)| *old != *new)?;
    Some((from, last + 1))
}

// What a call answers or tells, and what it changed.
fn show(rt: &impl Print, number: usize, before: &[u8; MOST], after: &[u8; MOST]) -> io::Result<()> {
    test_kit::print_number(rt, b" | ", number as u64)?;
    match difference(before, after) {
        None => rt.write_all(b" untouched"),
        Some((from, end)) => {
            test_kit::print_number(rt, b" from ", from as u64)?;
            rt.write_all(b": ")?;
            test_kit::print_bytes(rt, octets::slice(after, from, end.saturating_sub(from)))
        }
    }
}

fn keep(bytes: &[u8]) -> Ends {
    let buffer = fresh();
    let mut record = buffer;
    octet_writer::copy(&mut record, 0, bytes);
    Ends {
        sender: record,
        receiver: record,
        buffer,
    }
}

// A record of which a call is lent so many bytes, and which it may change.
fn changed<F: Fn(&mut [u8]) -> Result<(), Refusal>>(
    rt: &impl Print,
    record: [u8; MOST],
    lent: usize,
    call: F,
) -> io::Result<[u8; MOST]>
    requires { F.IsAlwaysCallable call }
{
    let mut next = record;
    let answer = call(front(&mut next, lent));
    show(rt, refusals::number(answer) as usize, &record, &next)?;
    Ok(next)
}

fn make(rt: &impl Print, names: &[u8], lent: Lent) -> io::Result<Ends> {
    let buffer = fresh();
    let key = octets::slice(names, 0, lent.first);
    let pair = octets::slice(names, lent.first, lent.second);
    let sender = changed(rt, buffer, lent.record, |record| {
        sender_bytes::make(record, key, pair)
    })?;
    let receiver = changed(rt, buffer, lent.record, |record| {
        receiver_bytes::make(record, key, pair)
    })?;
    Ok(Ends {
        sender,
        receiver,
        buffer,
    })
}

fn send(rt: &impl Print, sender: &[u8; MOST], sound: &[u8], lent: Lent) -> io::Result<()> {
    let before = fresh();
    let mut frame = before;
    let mut length = UNTOLD;
    let answer = sender_bytes::send(
        octets::slice(sender, 0, lent.record),
        sound,
        front(&mut frame, lent.first),
        &mut length,
    );
    show(rt, refusals::number(answer) as usize, sender, sender)?;
    show(rt, length, &before, &frame)
}

fn receive(rt: &impl Print, ends: Ends, frame: &[u8], lent: Lent) -> io::Result<Ends> {
    let before = fresh();
    let mut written = before;
    let mut next = ends;
    let mut length = UNTOLD;
    let answer = receiver_bytes::hear(
        front(&mut next.receiver, lent.record),
        frame,
        front(&mut next.buffer, lent.first),
        front(&mut written, lent.second),
        &mut length,
    );
    let number = refusals::number(answer) as usize;
    show(rt, number, &ends.receiver, &next.receiver)?;
    show(rt, lent.first % (MOST + 1), &ends.buffer, &next.buffer)?;
    show(rt, length, &before, &written)?;
    Ok(next)
}

fn call(rt: &impl Print, letter: u8, ends: Ends, given: &[u8], lent: Lent) -> io::Result<Ends> {
    match letter {
        b'k' => Ok(keep(given)),
        b'm' => make(rt, given, lent),
        b'r' => receive(rt, ends, given, lent),
        b's' => {
            send(rt, &ends.sender, given, lent)?;
            Ok(ends)
        }
        b'b' => {
            let sender = changed(rt, ends.sender, lent.record, |record| {
                sender_bytes::begin(record, given)
            })?;
            Ok(Ends { sender, ..ends })
        }
        b'h' => {
            let sender = changed(rt, ends.sender, lent.record, |record| {
                sender_bytes::hear(record, given)
            })?;
            Ok(Ends { sender, ..ends })
        }
        _ => {
            let sender = changed(rt, ends.sender, lent.record, |record| {
                receiver_bytes::make(record, given, given)
            })?;
            Ok(Ends { sender, ..ends })
        }
    }
}

fn numbers(row: &[u8]) -> Lent {
    Lent {
        record: test_kit::field_number(row, 2) as usize,
        first: test_kit::field_number(row, 3) as usize,
        second: test_kit::field_number(row, 4) as usize,
    }
}

fn run(rt: &impl Print, ends: Ends, row: &[u8]) -> io::Result<Ends> {
    if row.len() == 0 || test_kit::heading(rt, row)? {
        return Ok(ends);
    }
    rt.write_all(row)?;
    let mut bytes = [0; ROOM];
    let given = test_kit::field_bytes(row, 1, &mut bytes);
    let next = call(rt, test_kit::letter(row), ends, given, numbers(row))?;
    rt.write_all(b"\n")?;
    Ok(next)
}

fn main(rt: HostRuntime) -> io::Result<()> {
    let mut room = [0; test_kit::ROOM];
    let rows = test_kit::rows(&rt, &mut room)?;
    // the first row has to keep or to make something
    let mut ends = keep(rows);
    for row in rows.split(|byte| *byte == b'\n').take(MOST_ROWS) {
        ends = run(&rt, ends, row)?;
    }
    Ok(())
}
