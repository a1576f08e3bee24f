#![tactic(auto)]

// Trivium by rows: the standard's test vector, the engines against each other, and how calls fit together. The program
// keeps registers. A row sets them, or is a case that sets out from them; its first letter tells which:
//
//     registers WORDS         sets six words: of a, b and c, each with the upper word first
//     make KEY+VALUE N        sets what `new` makes of a key of N bytes and an initial value
//     walk - N                as many steps, by the plain engine
//     once                    64 steps at once, a stride
//     encipher INPUT N        into an output of so many bytes
//     cut INPUT N             so many bytes by one call and the others by another, each into an output that fits
//     strides - N COUNT       a stride against N steps, and the second of a run against N more
//     jumps INPUT N COUNT     a skip over as many bytes as the input has against N steps, and against enciphering it
//
// A row is printed, and behind it what comes out: refusals, the last 64 bits or the output, and the registers. The last
// two try COUNT contents, first those that the program keeps, then some that look random, also in the bits that a
// register does not have; they print in how many of these the engines differ.
use shift_registers::SixWords;
use std::io;
use test_kit::engines;
use trivium::{Registers, Running, Strode};

// One more than the highest upper word of each register: 29, 20 and 47 bits.
const A_TOP: u64 = 1 << 29;

const B_TOP: u64 = 1 << 20;

const C_TOP: u64 = 1 << 47;

fn registers(bytes: &[u8]) -> Registers {
    Registers {
        words: engines::six_words(bytes),
    }
}

fn show(rt: &impl Print, x: Registers) -> io::Result<()> {
    engines::print_words(rt, x.words)
}

fn show_strode(rt: &impl Print, x: Strode) -> io::Result<()> {
    engines::print_word(rt, x.word)?;
    show(rt, x.next)
}

// The same registers with no bit above a register's own.
fn trimmed(x: Registers) -> Registers {
    let words = x.words;
    Registers {
        words: SixWords {
            a1: words.a1 % A_TOP,
            b1: words.b1 % B_TOP,
            c1: words.c1 % C_TOP,
            ..words
        },
    }
}

// Steps, one at a time. Of their last 64 bits the first is the word's most significant.
fn walk(from: Registers, steps: usize) -> Strode {
    let start = Strode {
        word: 0,
        next: from,
    };
    (0..steps).fold(start, |gone, _| {
        let stepped = gone.next.step();
        Strode {
            word: (gone.word << 1) ^ (stepped.bit as u64),
            next: stepped.next,
        }
    })
}

// The second stride of a run meets the bits that the first has left above a register's own.
fn strides_agree(from: Registers, steps: usize) -> bool {
    let stepped = walk(from, steps);
    let further = walk(stepped.next, steps);
    let strode = from.stride();
    let one = Running::of(from).stride();
    let two = one.next.stride();
    strode.word == stepped.word
        && strode.next == trimmed(stepped.next)
        && one.word == stepped.word
        && two.word == further.word
        && two.next.stop() == trimmed(further.next)
}

// No steps at all leave the bits above a register's own, where a skip clears them.
fn skips_agree(from: Registers, steps: usize, input: &[u8]) -> bool {
    let mut output = engines::untouched();
    let stepped = walk(from, steps);
    let skipped = trivium_seek::skip(from, input.len());
    skipped == trimmed(stepped.next) && from.encipher(input, &mut output) == Ok(trimmed(skipped))
}

fn shuffled(last: Registers) -> Registers {
    Registers {
        words: engines::shuffled(last.words),
    }
}

// What a row comes to. It answers the registers from which the next row sets out.
fn run<P: Print>(rt: &P, kept: Registers, row: &[u8], bytes: &[u8]) -> io::Result<Registers> {
    let n = test_kit::field_number(row, 2) as usize;
    let count = test_kit::field_number(row, 3) as usize;
    match test_kit::letter(row) {
        b'r' => {
            show(rt, registers(bytes))?;
            return Ok(registers(bytes));
        }
        b'm' => {
            let rest = octets::slice(bytes, n, bytes.len());
            let made = trivium_seek::make(octets::slice(bytes, 0, n), rest);
            let next = engines::print_answer(rt, made, registers(b""))?;
            show(rt, next)?;
            return Ok(next);
        }
        b'w' => show_strode(rt, walk(kept, n))?,
        b'o' => show_strode(rt, kept.stride())?,
        b'e' => show(rt, engines::encipher(rt, kept, bytes, n)?)?,
        b'c' => show(rt, engines::encipher_in_two(rt, kept, bytes, n)?)?,
        b's' => engines::print_differing(rt, kept, count, |x| strides_agree(x, n), shuffled)?,
        _ => engines::print_differing(rt, kept, count, |x| skips_agree(x, n, bytes), shuffled)?,
    }
    Ok(kept)
}

fn main(rt: HostRuntime) -> io::Result<()> {
    let mut room = [0; test_kit::ROOM];
    let rows = test_kit::rows(&rt, &mut room)?;
    engines::run_cases(&rt, rows, registers(rows), run)?;
    Ok(())
}
