// What the programs for the ciphers share: calls with an output of at most 48 bytes, what they answer, and one engine
// against another.
ghost use Rattle.std.specs.Prelude.{◌≡◌, length};

use crate::{UNTOUCHED, field_bytes, heading, print_bytes, print_number};
use ciphers::StreamCipher;
use refusals::Refusal;
use shift_registers::SixWords;
use std::io;

// Room for an output, and for the bytes that a row spells.
pub fn untouched() -> [u8; 48]
    ensures { 48 ≡ length result }
{
    [UNTOUCHED; 48]
}

// Prints an answer's number, and goes on with what it holds or, if it is refused, with what is left then.
pub fn print_answer<T: Copy>(
    rt: &impl Print,
    answer: Result<T, Refusal>,
    left: T,
) -> io::Result<T> {
    let (number, next) = match answer {
        Ok(next) => (0, next),
        Err(refusal) => (refusal as u8, left),
    };
    print_number(rt, b" ", number as u64)?;
    Ok(next)
}

// The first elements of an output.
pub fn print_output(rt: &impl Print, output: &[u8; 48], n: usize) -> io::Result<()> {
    rt.write_all(b" ")?;
    print_bytes(rt, octets::slice(output, 0, n))
}

// Enciphers into an output of so many bytes.
pub fn encipher<C: StreamCipher>(
    rt: &impl Print,
    from: C,
    input: &[u8],
    output_bytes: usize,
) -> io::Result<C> {
    let mut output = untouched();
    let room = output_bytes % 49;
    let enciphered = ciphers::encipher(from, input, &mut output[..room]);
    let next = print_answer(rt, enciphered, from)?;
    print_output(rt, &output, room)?;
    Ok(next)
}

// So many bytes by one call and the others by another, each into an output that fits.
pub fn encipher_in_two<C: StreamCipher>(
    rt: &impl Print,
    from: C,
    input: &[u8],
    n: usize,
) -> io::Result<C> {
    let rest = octets::slice(input, n, input.len());
    let half = encipher(rt, from, octets::slice(input, 0, n), n)?;
    encipher(rt, half, rest, rest.len())
}

// In how many of so many contents two engines don't agree. Each content but the first is made of the one before it.
pub fn print_differing<S: Copy, A: Fn(S) -> bool, N: Fn(S) -> S>(
    rt: &impl Print,
    from: S,
    count: usize,
    agree: A,
    next: N,
) -> io::Result<()>
    requires agreeing { A.IsAlwaysCallable agree }
    requires going_on { N.IsAlwaysCallable next }
{
    let mut contents = from;
    let mut differing: u64 = 0;
    for _ in 0..count {
        if !agree(contents) {
            differing = differing.wrapping_add(1);
        }
        contents = next(contents);
    }
    print_number(rt, b" differ ", differing)
}

// Runs rows of a word, bytes and numbers, up to the first empty line and headings apart: a row is printed, and behind it
// what comes out. What a row comes to is what the next one sets out from.
pub fn run_cases<S: Copy, P: Print, F: Fn(&P, S, &[u8], &[u8]) -> io::Result<S>>(
    rt: &P,
    rows: &[u8],
    start: S,
    run: F,
) -> io::Result<S>
    requires { F.IsAlwaysCallable run }
{
    let mut kept = start;
    for row in rows.split(|byte| *byte == b'\n') {
        if row.len() == 0 {
            break;
        }
        if !heading(rt, row)? {
            let mut room = untouched();
            let bytes = field_bytes(row, 1, &mut room);
            rt.write_all(row)?;
            rt.write_all(b":")?;
            kept = run(rt, kept, row, bytes)?;
            rt.write_all(b"\n")?;
        }
    }
    Ok(kept)
}

// ---- ciphers on three registers, of two words each

// The words that bytes are.
pub fn six_words(bytes: &[u8]) -> SixWords {
    SixWords {
        a1: octets::number_at(bytes, 0, 8),
        a0: octets::number_at(bytes, 8, 8),
        b1: octets::number_at(bytes, 16, 8),
        b0: octets::number_at(bytes, 24, 8),
        c1: octets::number_at(bytes, 32, 8),
        c0: octets::number_at(bytes, 40, 8),
    }
}

pub fn print_word(rt: &impl Print, word: u64) -> io::Result<()> {
    print!(rt; " {word:016x}")
}

pub fn print_words(rt: &impl Print, words: SixWords) -> io::Result<()> {
    let SixWords {
        a1,
        a0,
        b1,
        b0,
        c1,
        c0,
    } = words;
    print!(rt; " {a1:016x} {a0:016x} {b1:016x} {b0:016x} {c1:016x} {c0:016x}")
}

// A new word, and the words of the content before it a place further.
pub fn shuffled(last: SixWords) -> SixWords {
    SixWords {
        a1: test_shuffle::shuffled(last.a1),
        a0: last.a1,
        b1: last.a0,
        b0: last.b1,
        c1: last.b0,
        c0: last.c1,
    }
}
