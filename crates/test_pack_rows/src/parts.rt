// Keys, a sealing from bytes and from a row, and an opening's answer in print.
ghost use Rattle.std.specs.Prelude.{◌≡◌, length};

use pack::{Kind, Opened};
use refusals::{Flaw, Refusal};
use seal_faults::Sound;
use std::io;

// More bytes than a small file has, or a word of a row spells; and more than the samples of the longest pack have.
pub const SMALL_ROOM: usize = 4096;

pub const LARGE_ROOM: usize = 65536;

// The keys of all rings as bytes: Trivium's four of ten bytes, behind them Enocoro's four of 16, and TRIAD's.
pub fn own_keys() -> [u8; 168]
    ensures { 168 ≡ length result }
{
    *b"first key.second keythird key.fourth keyfirst rack key..second rack key.third rack key..fourth rack key.\
        first tag key...second tag key..third tag key...fourth tag key.."
}

// The cipher that a word of a row names. If there is no such word it is Trivium.
pub fn kind_at(row: &[u8], n: usize) -> Kind {
    match test_kit::field(row, n) {
        b"enocoro" => Kind::Enocoro,
        b"triad" => Kind::Triad,
        _ => Kind::Trivium,
    }
}

// Where the samples of a file begin, if the initial value is at its place.
pub fn body_at(kind: Kind, value_at: usize) -> usize {
    value_at % 256 + kind.value_bytes() % 13 + 4
}

// A file with some bits of one of its bytes turned over. Behind the file there is no such byte.
pub fn turn_over(file: &[u8], at: usize, bits: u8, other: &mut [u8]) {
    octet_writer::copy(other, 0, file);
    if at < other.len() {
        other[at] = other[at] ^ bits;
    }
}

// Whether each byte is as an output is before a call.
fn untouched(output: &[u8]) -> bool {
    output.iter().all(|byte| *byte == test_kit::UNTOUCHED)
}

// Bytes, or that each is as it was before the call.
pub fn print_output(rt: &impl Print, output: &[u8]) -> io::Result<()> {
    if untouched(output) {
        return rt.write_all(b"untouched");
    }
    test_kit::print_bytes(rt, output)
}

// Prints whether two runs are the same, and what they are.
pub fn compare(rt: &impl Print, what: &[u8], a: &[u8], b: &[u8]) -> io::Result<()> {
    if a == b {
        rt.write_all(b", same ")?;
    } else {
        rt.write_all(b", other ")?;
    }
    rt.write_all(what)
}

// Decimal numbers, a space before each.
fn print_numbers(rt: &impl Print, numbers: &[u64]) -> io::Result<()> {
    for number in numbers {
        test_kit::print_number(rt, b" ", *number)?;
    }
    Ok(())
}

// What a refused file holds, for all that is printed of it.
pub const NOTHING: Opened = Opened {
    samples: 0,
    key: 0,
    loops: 0,
    name_length: 0,
    name_at: 0,
    value_at: 0,
    loops_at: 0,
};

// Prints the number, how many bytes the file lacks, and what it holds, in the order of the fields.
pub fn print_opened(rt: &impl Print, lead: &[u8], answer: Result<Opened, Flaw>) -> io::Result<()> {
    let (number, lacks, held) = match answer {
        Ok(held) => (0, 0, held),
        Err(flaw) => (flaw.refusal as u8, flaw.lacks, NOTHING),
    };
    let told = [
        number as u64,
        lacks as u64,
        held.samples as u64,
        held.key as u64,
        held.loops as u64,
        held.name_length as u64,
        held.name_at as u64,
        held.value_at as u64,
        held.loops_at as u64,
    ];
    rt.write_all(lead)?;
    print_numbers(rt, &told)
}

// Prints the number and the file's length, 0 if it is refused.
pub fn print_sealed(
    rt: &impl Print,
    lead: &[u8],
    answer: Result<usize, Refusal>,
) -> io::Result<()> {
    let (number, length) = match answer {
        Ok(length) => (0, length),
        Err(refusal) => (refusal as u8, 0),
    };
    test_kit::print_number(rt, lead, number as u64)?;
    test_kit::print_number(rt, b" ", length as u64)
}

// More zeros than a pack can have samples, and numbers of loops.
fn large_sound() -> [i16; 16400]
    ensures { 16400 ≡ length result }
{
    [0; 16400]
}

fn large_run() -> [u32; 18]
    ensures { 18 ≡ length result }
{
    [0; 18]
}

// Fills the output with the signed numbers of two bytes each, -32768 too, which no opening gives. Behind the last they
// are 0.
fn twos(bytes: &[u8], output: &mut [i16]) {
    let mut at = 0;
    for sample in output.iter_mut() {
        *sample = samples::signed(octets::two_at(bytes, at));
        at = std::num::wrapping_add_usize(at, 2);
    }
}

// Fills the output with numbers of four bytes. Behind the last they are 0.
fn fours(bytes: &[u8], output: &mut [u32]) {
    let mut at = 0;
    for number in output.iter_mut() {
        *number = octets::four_at(bytes, at);
        at = std::num::wrapping_add_usize(at, 4);
    }
}

// The first n elements, or all.
fn first<T>(run: &[T], n: usize) -> &[T] {
    run.get(..n).unwrap_or(run)
}

// Seals samples of two bytes and loops of four for each number, under the keys that all tests have, into the first
// elements of the file as far as the room goes.
pub fn seal(
    kind: Kind,
    name: &[u8],
    key: u8,
    value: &[u8],
    body: &[u8],
    loops: &[u8],
    room: usize,
    file: &mut [u8],
) -> Result<usize, Refusal> {
    let mut large = large_sound();
    let mut run = large_run();
    let lent = room.min(file.len());
    twos(body, &mut large);
    fours(loops, &mut run);
    let sound = Sound {
        name,
        key,
        value,
        samples: first(&large, body.len() / 2),
        loops: first(&run, loops.len() / 4),
    };
    let rings = rings::rings_of(&own_keys());
    sealer::seal(kind, sound, rings, &mut file[..lent])
}

// The same with NAME KEY VALUE LOOPS ROOM from the row's last words, which begin at the fourth.
pub fn seal_row(row: &[u8], kind: Kind, body: &[u8], file: &mut [u8]) -> Result<usize, Refusal> {
    let mut name = [0; SMALL_ROOM];
    let mut value = [0; SMALL_ROOM];
    let mut loops = [0; SMALL_ROOM];
    seal(
        kind,
        test_kit::field_bytes(row, 3, &mut name),
        (test_kit::field_number(row, 4) % 256) as u8,
        test_kit::field_bytes(row, 5, &mut value),
        body,
        test_kit::field_bytes(row, 6, &mut loops),
        test_kit::field_number(row, 7) as usize,
        file,
    )
}
