#![tactic(auto)]

// What the test programs share. A program reads rows from standard input, one on a line, and one loop runs them all:
//
//     rows(rt, room)               standard input, in the room that is lent for it and as far as that goes
//     run_rows(rt, rows, kept, f)  runs them: `f` is given a row and what the one before it kept, and `f` prints
//     heading(rt, line)            prints a line that begins with `#` as it is, and answers whether it is one
//     field(line, n)               the n-th word of a row, from 0; empty if there is none
//     field_number(line, n)        the decimal number that it is
//     field_bytes(line, n, room)   the bytes that it spells, in the room that is lent for them and as far as that goes:
//                                  `-` none, `0102ff` digits in pairs, `5aa5*40` a run over and over to 40 bytes,
//                                  `'some_value` letters with `_` for a space, and `+` between parts of these
//     print_bytes(rt, bytes)       bytes in pairs of digits, `-` for none
//     print_number(rt, word, n)    a word and a decimal number behind it
//
// None of these has a contract for what it reads or prints, and docs/DECISIONS.md says why. What reads or prints answers
// an error where that fails, with which a program ends.
ghost use Rattle.std.specs.Prelude.{◌<◌, ◌≤◌, length, IfOk};

pub mod engines;

use std::io;

// What each byte of an output is before a call, to see whether the call writes it.
pub const UNTOUCHED: u8 = 0xa5;

// The n-th part, from 0, of a text that a byte takes apart. It is empty behind the last.
fn part(text: &[u8], by: u8, n: usize) -> &[u8] {
    text.split(|byte| *byte == by).nth(n).unwrap_or(&text[..0])
}

// Room for all rows of a program.
pub const ROOM: usize = 65536;

// The rows on standard input.
pub fn rows<'a>(rt: &impl Input, room: &'a mut [u8]) -> io::Result<&'a [u8]> {
    let length = whole_input::read_full(rt, room)?;
    Ok(&room[..length])
}

// Prints a line that begins with `#` as it is, and answers whether it is one.
pub fn heading(rt: &impl Print, line: &[u8]) -> io::Result<bool> {
    if letter(line) != b'#' {
        return Ok(false);
    }
    rt.write_all(line)?;
    rt.write_all(b"\n")?;
    Ok(true)
}

// Runs the rows in their order, up to the first empty line, headings apart. What a row comes to is what the next one
// sets out from.
pub fn run_rows<S: Copy, P: Print, F: Fn(&P, S, &[u8]) -> io::Result<S>>(
    rt: &P,
    rows: &[u8],
    start: S,
    run: F,
) -> io::Result<S>
    requires { F.IsAlwaysCallable run }
{
    let mut kept = start;
    for row in rows.split(|byte| *byte == b'\n') {
        if row.len() == 0 {
            break;
        }
        if !heading(rt, row)? {
            kept = run(rt, kept, row)?;
        }
    }
    Ok(kept)
}

pub fn field(line: &[u8], n: usize) -> &[u8] {
    part(line, b' ', n)
}

// The letter that a row begins with.
pub fn letter(row: &[u8]) -> u8 {
    byte_at(row, 0)
}

// The byte at a place, or 0.
fn byte_at(text: &[u8], at: usize) -> u8 {
    text.get(at).copied().unwrap_or(0)
}

// What a glyph counts, of ten or of sixteen.
fn digit(glyph: u8) -> u8
    ensures { result < 16 }
{
    if b'a' <= glyph {
        return (glyph - b'a') % 6 + 10;
    }
    glyph % 16
}

// A decimal number. One of more than 18 digits loses those in front, so that there is nothing to show.
fn number(word: &[u8]) -> u64 {
    word.iter().fold(0, |value, glyph| {
        value % 100000000000000000 * 10 + (digit(*glyph) as u64)
    })
}

// How many bytes a run of letters or of pairs spells, and the i-th of them; after the last comes the first again.
fn spelt(run: &[u8]) -> usize {
    if byte_at(run, 0) == b'\'' {
        return std::num::wrapping_sub_usize(run.len(), 1);
    }
    run.len() / 2
}

fn spelt_byte(run: &[u8], i: usize) -> u8 {
    let length = spelt(run);
    if length == 0 {
        return 0;
    }
    let at = i % length;
    let behind = std::num::wrapping_add_usize(at, 1);
    if byte_at(run, 0) == b'\'' {
        let letter = byte_at(run, behind);
        return if letter == b'_' { b' ' } else { letter };
    }
    let upper = byte_at(run, std::num::wrapping_add_usize(at, at));
    let lower = byte_at(run, std::num::wrapping_add_usize(at, behind));
    digit(upper) * 16 + digit(lower)
}

// How many bytes one part of a word spells: as many as it says, or its run once.
fn count(piece: &[u8]) -> usize {
    let said = part(piece, b'*', 1);
    if said.len() == 0 {
        return spelt(piece);
    }
    number(said) as usize
}

// Writes what one part of a word spells from `at`, as far as there is room, and answers where it ends.
fn spell(piece: &[u8], output: &mut [u8], at: usize) -> usize {
    let run = part(piece, b'*', 0);
    let count = count(piece).min(output.len().saturating_sub(at));
    for i in 0..count {
        output[at + i] = spelt_byte(run, i);
    }
    at + count
}

// Puts the bytes that a word spells at the front of the output, and answers how many.
fn bytes(word: &[u8], output: &mut [u8]) -> usize {
    let mut end = 0;
    for piece in word.split(|byte| *byte == b'+') {
        end = spell(piece, output, end);
    }
    end
}

pub fn field_number(line: &[u8], n: usize) -> u64 {
    number(field(line, n))
}

pub fn field_bytes<'a>(line: &[u8], n: usize, room: &'a mut [u8]) -> &'a [u8] {
    let length = bytes(field(line, n), room);
    octets::slice(room, 0, length)
}

pub fn print_bytes(rt: &impl Print, bytes: &[u8]) -> io::Result<()> {
    if bytes.len() == 0 {
        rt.write_all(b"-")?;
    }
    for byte in bytes {
        print_byte(rt, *byte)?;
    }
    Ok(())
}

fn print_byte(rt: &impl Print, byte: u8) -> io::Result<()> {
    print!(rt; "{byte:02x}")
}

pub fn print_number(rt: &impl Print, word: &[u8], number: u64) -> io::Result<()> {
    rt.write_all(word)?;
    rt.print(number)
}
