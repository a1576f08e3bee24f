#![tactic(auto)]

// TRIAD by rows: the paper's test vectors, the engines against each other, and how calls fit together. The program
// keeps registers. A row sets them, or is a case that sets out from them; its first letter tells which:
//
//     registers WORDS         sets six words: of a, b and c, each with the older word first
//     make KEY+NONCE N        sets what `new` makes of a key of N bytes and a nonce
//     begin KEY+NONCE N       sets what `new_tag` makes of them
//     absorb INPUT            sets what they are once the input is taken in
//     tag                     the tag of all that was taken in
//     walk WORD N             as many steps, by the plain engine, which take the word's bits from the lowest on
//     once WORD               64 steps at once, a stride
//     encipher INPUT N        into an output of so many bytes
//     here INPUT              where it stands, in front of bytes that are none of it
//     cut INPUT N             so many bytes by one call and the others by another, each into an output that fits
//     pieces INPUT N          so many bytes taken in by one call and the others by another
//     under INPUT N           the same, each byte deciphered on its way, from a stride behind the registers on
//     strides WORD N COUNT    a stride with the word against N steps, and one with no bit set against N more
//     vector KEY+NONCE N DATA MESSAGE    enciphering and tag together
//
// A row is printed, and behind it what comes out: refusals, the last 64 bits or the output, and the registers. The last
// but one tries COUNT contents, first those that the program keeps, then some that look random, also in the bits that a
// register does not have, each with a word of its own; it prints in how many of these the engines differ. The last one
// prints the message enciphered, and its tag: taken in as it is, with data and message cut at N, and from the
// enciphered message, which is cut too.
use ciphers::StreamCipher;
use std::io;
use test_kit::engines;
use triad::{Registers, Strode};

// More bytes than a row spells.
const ROOM: usize = 4096;

fn registers(bytes: &[u8]) -> Registers {
    Registers {
        words: engines::six_words(bytes),
    }
}

fn show(rt: &impl Print, x: Registers) -> io::Result<()> {
    engines::print_words(rt, x.words)
}

fn show_strode(rt: &impl Print, x: Strode) -> io::Result<()> {
    engines::print_word(rt, x.word)?;
    show(rt, x.next)
}

// Steps, one at a time. Behind the word's 64 bits they take none. Of the last 64 bits that they put out the last is the
// most significant.
fn walk(from: Registers, message: u64, steps: usize) -> Strode {
    let mut next = from;
    let mut bits = message;
    let mut word: u64 = 0;
    for _ in 0..steps {
        let stepped = next.step(bits);
        word = (word >> 1) ^ ((stepped.bit as u64) << 63);
        next = stepped.next;
        bits = bits >> 1;
    }
    Strode { word, next }
}

// A stride that takes a word, and behind it one that takes none.
fn strides_agree(from: Registers, message: u64, steps: usize) -> bool {
    let stepped = walk(from, message, steps);
    let further = walk(stepped.next, 0, steps);
    let one = from.stride(message);
    let two = one.next.stride(0);
    one.word == stepped.word
        && one.next == stepped.next
        && two.word == further.word
        && two.next == further.next
}

// Other registers, and another message.
fn shuffled(last: (Registers, u64)) -> (Registers, u64) {
    let (registers, message) = last;
    let next = Registers {
        words: engines::shuffled(registers.words),
    };
    (next, test_shuffle::shuffled(message))
}

// The front of a run, which always has as many bytes here.
fn cover_front(from: Registers, run: &mut [u8], n: usize) -> Registers {
    match run.get_mut(..n) {
        Some(front) => from.cover(front),
        None => from,
    }
}

fn here(rt: &impl Print, from: Registers, input: &[u8]) -> io::Result<Registers> {
    let mut output = engines::untouched();
    octet_writer::copy(&mut output, 0, input);
    let next = cover_front(from, &mut output, input.len());
    engines::print_output(rt, &output, 48)?;
    Ok(next)
}

fn absorb_in_two(from: Registers, bytes: &[u8], n: usize) -> Registers {
    let half = triad_runs::absorb(from, octets::slice(bytes, 0, n));
    triad_runs::absorb(half, octets::slice(bytes, n, bytes.len()))
}

// The second call's cipher stands behind the first one's bytes.
fn absorb_under_in_two(from: Registers, cipher: Registers, bytes: &[u8], n: usize) -> Registers {
    let mut room = [0; ROOM];
    let first = octets::slice(bytes, 0, n);
    let half = triad_runs::absorb_under(from, cipher, first);
    let moved = ciphers::encipher(cipher, first, &mut room).unwrap_or(cipher);
    triad_runs::absorb_under(half, moved, octets::slice(bytes, n, bytes.len()))
}

// How many bytes associated data are, as the paper pads them: seven bytes, the least significant first.
fn absorb_count(from: Registers, count: usize) -> Registers {
    let padding = [
        (count % 256) as u8,
        (count / 256 % 256) as u8,
        0,
        0,
        0,
        0,
        0,
    ];
    triad_runs::absorb(from, &padding)
}

fn show_tags(
    rt: &impl Print,
    cipher: Registers,
    begun: Registers,
    data: &[u8],
    message: &[u8],
    covered: &[u8],
    n: usize,
) -> io::Result<()> {
    let one = absorb_count(triad_runs::absorb(begun, data), data.len());
    let two = absorb_count(absorb_in_two(begun, data, n), data.len());
    engines::print_word(rt, triad_runs::absorb(one, message).tag())?;
    engines::print_word(rt, absorb_in_two(two, message, n).tag())?;
    engines::print_word(rt, absorb_under_in_two(one, cipher, covered, n).tag())
}

fn vector(
    rt: &impl Print,
    key: &[u8],
    nonce: &[u8],
    data: &[u8],
    message: &[u8],
    n: usize,
) -> io::Result<()> {
    let mut room = [0; ROOM];
    let cipher = Registers::new(key, nonce).unwrap_or(registers(b""));
    let begun = Registers::new_tag(key, nonce).unwrap_or(registers(b""));
    octet_writer::copy(&mut room, 0, message);
    cover_front(cipher, &mut room, message.len());
    let covered = octets::slice(&room, 0, message.len());
    rt.write_all(b" ")?;
    test_kit::print_bytes(rt, covered)?;
    show_tags(rt, cipher, begun, data, message, covered, n)
}

fn run_vector(rt: &impl Print, row: &[u8], bytes: &[u8], n: usize) -> io::Result<()> {
    let mut data_room = [0; ROOM];
    let mut message_room = [0; ROOM];
    vector(
        rt,
        octets::slice(bytes, 0, triad::KEY_BYTES),
        octets::slice(bytes, triad::KEY_BYTES, triad::VALUE_BYTES),
        test_kit::field_bytes(row, 3, &mut data_room),
        test_kit::field_bytes(row, 4, &mut message_room),
        n,
    )
}

// A case, which sets nothing.
fn try_case(
    rt: &impl Print,
    kept: Registers,
    row: &[u8],
    bytes: &[u8],
    n: usize,
) -> io::Result<()> {
    let word = octets::number_at(bytes, 0, 8);
    match test_kit::letter(row) {
        b't' => engines::print_word(rt, kept.tag()),
        b'w' => show_strode(rt, walk(kept, word, n)),
        b'o' => show_strode(rt, kept.stride(word)),
        b'e' => show(rt, engines::encipher(rt, kept, bytes, n)?),
        b'h' => show(rt, here(rt, kept, bytes)?),
        b'c' => show(rt, engines::encipher_in_two(rt, kept, bytes, n)?),
        b'p' => show(rt, absorb_in_two(kept, bytes, n)),
        b'u' => {
            let behind = kept.stride(0).next;
            show(rt, absorb_under_in_two(kept, behind, bytes, n))
        }
        b'v' => run_vector(rt, row, bytes, n),
        _ => {
            let count = test_kit::field_number(row, 3) as usize;
            engines::print_differing(
                rt,
                (kept, word),
                count,
                |(x, message)| strides_agree(x, message, n),
                shuffled,
            )
        }
    }
}

// What a row comes to. It answers the registers from which the next row sets out.
fn run<P: Print>(rt: &P, kept: Registers, row: &[u8], bytes: &[u8]) -> io::Result<Registers> {
    let n = test_kit::field_number(row, 2) as usize;
    let key = octets::slice(bytes, 0, n);
    let nonce = octets::slice(bytes, n, bytes.len());
    let next = match test_kit::letter(row) {
        b'r' => registers(bytes),
        b'm' => engines::print_answer(rt, Registers::new(key, nonce), registers(b""))?,
        b'b' => engines::print_answer(rt, Registers::new_tag(key, nonce), registers(b""))?,
        b'a' => triad_runs::absorb(kept, bytes),
        _ => {
            try_case(rt, kept, row, bytes, n)?;
            return Ok(kept);
        }
    };
    show(rt, next)?;
    Ok(next)
}

fn main(rt: HostRuntime) -> io::Result<()> {
    let mut room = [0; test_kit::ROOM];
    let rows = test_kit::rows(&rt, &mut room)?;
    engines::run_cases(&rt, rows, registers(rows), run)?;
    Ok(())
}
