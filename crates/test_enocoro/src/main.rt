#![tactic(auto)]

// Enocoro-128v2 by rows: the standard's test vectors, and how calls fit together. The program keeps registers. A row
// sets them, or is a case that sets out from them; its first letter tells which:
//
//     load KEY+VALUE N        sets what `load` makes of a key of N bytes and an initial value
//     make KEY+VALUE N        sets what `new` makes of them
//     blank - N               sets what a blank round with the counter N makes of them
//     once                    sets what a round makes of them
//     jump - N                sets what a skip over so many bytes makes of them
//     encipher INPUT N        into an output of so many bytes
//     cut INPUT N             so many bytes by one call and the others by another, each into an output that fits
//     skip INPUT N COUNT      a skip over so many bytes against enciphering the input
//
// A row is printed, and behind it what comes out: refusals, bytes, and the registers: the two bytes a and the 32 bytes
// b. The last one tries COUNT contents, first those that the program keeps, then some that look random; it prints the
// registers behind the first skip, and in how many of the contents the two calls differ.
use enocoro::Registers;
use std::io;
use test_kit::engines;

const ZEROS: Registers = Registers {
    a0: 0,
    a1: 0,
    b0: 0,
    b1: 0,
    b2: 0,
    b3: 0,
};

fn show(rt: &impl Print, x: Registers) -> io::Result<()> {
    let Registers {
        a0,
        a1,
        b0,
        b1,
        b2,
        b3,
    } = x;
    print!(rt; " {a0:02x}{a1:02x} {b0:016x}{b1:016x}{b2:016x}{b3:016x}")
}

// A round before the keystream begins: its counter goes into the last byte b first.
fn blank(from: Registers, counter: u8) -> Registers {
    let counted = Registers {
        b3: from.b3 ^ (counter as u64),
        ..from
    };
    enocoro_runs::round(counted).next
}

// One round, with its byte.
fn once(rt: &impl Print, from: Registers) -> io::Result<Registers> {
    let rounded = enocoro_runs::round(from);
    let byte = rounded.byte;
    print!(rt; " {byte:02x}")?;
    Ok(rounded.next)
}

fn skips_agree(from: Registers, input: &[u8], bytes: usize) -> bool {
    let mut output = engines::untouched();
    ciphers::encipher(from, input, &mut output) == Ok(enocoro_runs::skip(from, bytes))
}

// A new word, and the words of the content before it a place further.
fn shuffled(last: Registers) -> Registers {
    Registers {
        a0: (last.b3 % 256) as u8,
        a1: last.a0,
        b0: test_shuffle::shuffled(last.b0),
        b1: last.b0,
        b2: last.b1,
        b3: last.b2,
    }
}

// A case, which sets nothing.
fn try_case(
    rt: &impl Print,
    kept: Registers,
    letter: u8,
    bytes: &[u8],
    n: usize,
    count: usize,
) -> io::Result<()> {
    match letter {
        b'e' => show(rt, engines::encipher(rt, kept, bytes, n)?),
        b'c' => show(rt, engines::encipher_in_two(rt, kept, bytes, n)?),
        _ => {
            show(rt, enocoro_runs::skip(kept, n))?;
            engines::print_differing(rt, kept, count, |x| skips_agree(x, bytes, n), shuffled)
        }
    }
}

// What a row comes to. It answers the registers from which the next row sets out.
fn run<P: Print>(rt: &P, kept: Registers, row: &[u8], bytes: &[u8]) -> io::Result<Registers> {
    let n = test_kit::field_number(row, 2) as usize;
    let count = test_kit::field_number(row, 3) as usize;
    let key = octets::slice(bytes, 0, n);
    let value = octets::slice(bytes, n, bytes.len());
    let next = match test_kit::letter(row) {
        b'l' => engines::print_answer(rt, Registers::load(key, value), ZEROS)?,
        b'm' => engines::print_answer(rt, Registers::new(key, value), ZEROS)?,
        b'b' => blank(kept, (n % 256) as u8),
        b'o' => once(rt, kept)?,
        b'j' => enocoro_runs::skip(kept, n),
        letter => {
            try_case(rt, kept, letter, bytes, n, count)?;
            return Ok(kept);
        }
    };
    show(rt, next)?;
    Ok(next)
}

fn main(rt: HostRuntime) -> io::Result<()> {
    let mut room = [0; test_kit::ROOM];
    let rows = test_kit::rows(&rt, &mut room)?;
    engines::run_cases(&rt, rows, ZEROS, run)?;
    Ok(())
}
