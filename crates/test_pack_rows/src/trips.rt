// Sounds there and back: sealed, opened under the same ring, sealed again with the parts of the file, opened under
// another ring, and sealed again under the next key number. The seed makes COUNT samples. Printed are the answers, a
// tag, whether what came out is the same as what went in, and whether each output is untouched behind the part that a
// call should write. A refused sealing leaves no file to open, and a row ends where its file does not open.
ghost use Rattle.std.specs.Prelude.{◌≡◌, length};

use crate::parts;
use pack::{Kind, Opened};
use refusals::Flaw;
use std::io;

// What a sound begins with: both ends of the range and both sides of 0.
const EDGES: [u8; 8] = [0x80, 1, 0xff, 0xff, 0, 0, 0x7f, 0xff];

// The lowest sample.
const LOWEST: [u8; 2] = [0x80, 1];

const FILE_ROOM: usize = 32900;

const SOUND_ROOM: usize = 16400;

fn file_room() -> [u8; 32900]
    ensures { 32900 ≡ length result }
{
    [test_kit::UNTOUCHED; FILE_ROOM]
}

fn sound_room() -> [i16; 16400]
    ensures { 16400 ≡ length result }
{
    [samples::word(test_kit::UNTOUCHED, test_kit::UNTOUCHED); SOUND_ROOM]
}

// Bytes that look random, behind the edges.
fn fill(seed: u64, bytes: &mut [u8]) {
    let mut word = seed;
    for byte in bytes.iter_mut() {
        word = test_shuffle::shuffled(word);
        *byte = (word % 256) as u8;
    }
    let edges = EDGES;
    octet_writer::copy(bytes, 0, &edges);
}

// Keys of which none is one of the program's own.
fn other_keys() -> [u8; 168]
    ensures { 168 ≡ length result }
{
    *b"first locksecondlockthird lockfourthlockfirst rack lock.second rack lockthird rack lock.fourth rack lock\
        first tag lock..second tag lock.third tag lock..fourth tag lock."
}

// The bytes of an output behind its n-th.
fn print_rest(rt: &impl Print, output: &[u8], n: usize) -> io::Result<()> {
    rt.write_all(b", rest ")?;
    parts::print_output(rt, octets::slice(output, n, FILE_ROOM))
}

// The samples that should be there, as bytes, and what is behind them. An array's length is known where it is lent as
// an array, also after a part of it was lent.
fn print_sound(rt: &impl Print, output: &[i16; 16400], body: &[u8]) -> io::Result<()> {
    let mut bytes = file_room();
    sample_runs::write_words(output, &mut bytes);
    parts::compare(rt, b"samples", octets::slice(&bytes, 0, body.len()), body)?;
    print_rest(rt, &bytes, body.len())
}

fn open(
    rt: &impl Print,
    lead: &[u8],
    keys: &[u8; 168],
    file: &[u8],
    room: usize,
    body: &[u8],
) -> io::Result<Result<Opened, Flaw>> {
    let mut output = sound_room();
    let lent = room.min(SOUND_ROOM);
    let opened = opener::open(file, rings::rings_of(keys), &mut output[0..lent]);
    let samples = opened.unwrap_or(parts::NOTHING).samples;
    parts::print_opened(rt, lead, opened)?;
    print_sound(rt, &output, octets::slice(body, 0, 2 * (samples % 16385)))?;
    Ok(opened)
}

// Bytes of a file beside a word of the row.
fn compare_field(
    rt: &impl Print,
    what: &[u8],
    file: &[u8],
    at: usize,
    n: usize,
    row: &[u8],
    field: usize,
) -> io::Result<()> {
    let mut room = [0; parts::SMALL_ROOM];
    parts::compare(
        rt,
        what,
        octets::slice(file, at, n),
        test_kit::field_bytes(row, field, &mut room),
    )
}

// The parts of a file that are not enciphered, at the places that the answer says.
fn print_parts(
    rt: &impl Print,
    row: &[u8],
    kind: Kind,
    file: &[u8],
    opened: Opened,
) -> io::Result<()> {
    let value_bytes = kind.value_bytes();
    compare_field(
        rt,
        b"name",
        file,
        opened.name_at,
        opened.name_length,
        row,
        3,
    )?;
    compare_field(rt, b"value", file, opened.value_at, value_bytes, row, 5)?;
    compare_field(
        rt,
        b"loops",
        file,
        opened.loops_at,
        8 * (opened.loops % 9),
        row,
        6,
    )
}

// A file sealed again with its own parts, under any key number, beside n bytes of it from a place.
fn seal_again(
    rt: &impl Print,
    what: &[u8],
    kind: Kind,
    file: &[u8],
    opened: Opened,
    key: u8,
    body: &[u8],
    from: usize,
    n: usize,
) -> io::Result<()> {
    let mut again = file_room();
    let sealed = parts::seal(
        kind,
        octets::slice(file, opened.name_at, opened.name_length),
        key,
        octets::slice(file, opened.value_at, kind.value_bytes()),
        body,
        octets::slice(file, opened.loops_at, 8 * (opened.loops % 9)),
        FILE_ROOM,
        &mut again,
    );
    let number = match sealed {
        Ok(_) => 0,
        Err(refusal) => refusal as u8,
    };
    test_kit::print_number(rt, b"; sealed ", number as u64)?;
    parts::compare(
        rt,
        what,
        octets::slice(file, from, n),
        octets::slice(&again, from, n),
    )
}

// The same file once more: with everything as it was, under another ring, and under the next key number.
fn once_more(
    rt: &impl Print,
    kind: Kind,
    file: &[u8],
    bytes: usize,
    opened: Opened,
    body: &[u8],
) -> io::Result<()> {
    let key = opened.key;
    let keys = other_keys();
    let body_at = parts::body_at(kind, opened.value_at);
    let next = (key % 4 + 1) % 4;
    seal_again(rt, b"file", kind, file, opened, key, body, 0, FILE_ROOM)?;
    let _ = open(
        rt,
        b"; other ring",
        &keys,
        octets::slice(file, 0, bytes),
        SOUND_ROOM,
        body,
    )?;
    seal_again(
        rt,
        b"body",
        kind,
        file,
        opened,
        next,
        body,
        body_at,
        body.len(),
    )
}

fn back(
    rt: &impl Print,
    row: &[u8],
    kind: Kind,
    file: &[u8],
    bytes: usize,
    body: &[u8],
) -> io::Result<()> {
    let room = test_kit::field_number(row, 8) as usize;
    let keys = parts::own_keys();
    let opened = open(
        rt,
        b"; opened",
        &keys,
        octets::slice(file, 0, bytes),
        room,
        body,
    )?;
    match opened {
        Ok(held) => {
            print_parts(rt, row, kind, file, held)?;
            once_more(rt, kind, file, bytes, held, body)
        }
        Err(_) => Ok(()),
    }
}

// The tag, the last eight bytes of a file that has one.
fn print_tag(rt: &impl Print, kind: Kind, file: &[u8], bytes: usize) -> io::Result<()> {
    if kind.tag_length() == 0 {
        return Ok(());
    }
    rt.write_all(b", tag ")?;
    let at = std::num::wrapping_sub_usize(bytes, 8);
    test_kit::print_bytes(rt, octets::slice(file, at, 8))
}

fn there(rt: &impl Print, row: &[u8], body: &[u8]) -> io::Result<()> {
    let mut file = file_room();
    let kind = parts::kind_at(row, 9);
    let sealed = parts::seal_row(row, kind, body, &mut file);
    let bytes = sealed.unwrap_or(0);
    parts::print_sealed(rt, b"sealed ", sealed)?;
    print_rest(rt, &file, bytes)?;
    print_tag(rt, kind, &file, bytes)?;
    back(rt, row, kind, &file, bytes, body)
}

pub fn trip(rt: &impl Print, row: &[u8]) -> io::Result<()> {
    let mut bytes = [0; parts::LARGE_ROOM];
    let count = test_kit::field_number(row, 2) as usize;
    fill(test_kit::field_number(row, 1), &mut bytes);
    there(
        rt,
        row,
        octets::slice(&bytes, 0, std::num::wrapping_add_usize(count, count)),
    )?;
    rt.write_all(b"\n")
}

// Where the sample at a place has its last byte, or the end of all room if there is no such sample.
fn last_byte(body_at: usize, count: usize, place: usize) -> usize {
    if place < count {
        return std::num::wrapping_add_usize(body_at, 1 + 2 * (place % 16384));
    }
    FILE_ROOM
}

// A file, and another that differs from it in the last bit of a sample, or in nothing. The other one opens to the same
// sound; sealed again it is the first one, and itself only if they don't differ.
fn lowest_back(
    rt: &impl Print,
    kind: Kind,
    file: &[u8],
    other: &[u8],
    bytes: usize,
    body: &[u8],
) -> io::Result<()> {
    let keys = parts::own_keys();
    let opened = open(
        rt,
        b"opened",
        &keys,
        octets::slice(other, 0, bytes),
        SOUND_ROOM,
        body,
    )?;
    let held = opened.unwrap_or(parts::NOTHING);
    seal_again(rt, b"file", kind, other, held, held.key, body, 0, FILE_ROOM)?;
    seal_again(
        rt,
        b"first file",
        kind,
        file,
        held,
        held.key,
        body,
        0,
        FILE_ROOM,
    )
}

fn lowest_there(rt: &impl Print, row: &[u8], body: &[u8], place: usize) -> io::Result<()> {
    let mut file = file_room();
    let mut other = file_room();
    let kind = parts::kind_at(row, 9);
    let bytes = parts::seal_row(row, kind, body, &mut file).unwrap_or(0);
    let first = surveyor::survey(octets::slice(&file, 0, bytes)).unwrap_or(parts::NOTHING);
    let body_at = parts::body_at(kind, first.value_at);
    let at = last_byte(body_at, body.len() / 2, place);
    parts::turn_over(&file, at, 1, &mut other);
    lowest_back(rt, kind, &file, &other, bytes, body)
}

// With the lowest sample at PLACE, of which the file has 80 00 then: the last bit of its enciphered byte is turned
// over, and so that of the plain byte.
pub fn lowest(rt: &impl Print, row: &[u8]) -> io::Result<()> {
    let mut bytes = [0; parts::LARGE_ROOM];
    let count = test_kit::field_number(row, 2) as usize % 16385;
    let place = test_kit::field_number(row, 8) as usize % 16385;
    let sample = LOWEST;
    fill(test_kit::field_number(row, 1), &mut bytes);
    octet_writer::copy(&mut bytes, 2 * place, &sample);
    lowest_there(rt, row, octets::slice(&bytes, 0, 2 * count), place)?;
    rt.write_all(b"\n")
}
