#![tactic(auto)]

// What the reading program prints, as bytes: lines with a word and a name or a number.
ghost use Rattle.std.specs.Prelude.{◌+◌, ◌/◌, ◌%◌, ◌^◌, ◌≤◌, ◌≡◌, length};
ghost use Rattle.octets.specs.Buffers.{put};
ghost use Rattle.octets.specs.Digits.{digits};
ghost use Rattle.refusals.specs.Answers.{number_of};
ghost use Rattle.refusals.specs.Outcome.{outcome};
ghost use Rattle.pack.specs.Answers.{opening_of};
ghost use Rattle.pack.specs.Calls.{inspecting_file};
ghost use Rattle.rings.specs.Ring.{keys_bytes};
ghost use Rattle.pack_text.specs.Text.{keys_in, pack_in};
ghost use Rattle.pack_text.specs.Text.{trimmed, decimal, line, name_word, pack_lines, refused_line, text_of, writing};

use pack::Opened;
use refusals::{Flaw, Refusal};

// The decimal digit of a number that has so many digits below it.
fn digit_above(value: u64, below: usize) -> u8
    requires { below ≤ 19 }
    ensures { result ≡ value / 10 ^ below % 10 }
{
    (value / 10u64.pow(below as u32) % 10) as u8
}

// How many decimal digits a number has without zeros at the front.
fn width(value: u64) -> usize
    ensures { (result ≤ 20) × (digits 10 result value ≡ trimmed (digits 10 20 value)) }
{
    match value.checked_ilog10() {
        Some(below) => below as usize + 1,
        None => 1,
    }
}

// Writes a number from `at`, and answers where it ends.
fn write_decimal(d: &mut [u8], at: usize, value: u64) -> usize
    requires { at + 20 ≤ length d.old }
    ensures { outcome result d.new
        ≡ outcome (at + length (decimal value)) (put d.old at (decimal value)) }
{
    let n = width(value);
    for i in 0..n {
        d[at + i] = b'0' + digit_above(value, n - 1 - i);
    }
    at + n
}

// Writes a line about a number from `at`, and answers where it ends.
fn write_line(d: &mut [u8], at: usize, word: &[u8], value: u64) -> usize
    requires { at + length word.now + 21 ≤ length d.old }
    ensures { outcome result d.new ≡ outcome (at + length (line word.now (decimal value)))
        (put d.old at (line word.now (decimal value))) }
{
    octet_writer::copy(d, at, word);
    let line_end = write_decimal(d, at + word.len(), value);
    octet_writer::copy(d, line_end, b"\n");
    line_end + 1
}

// Writes the line about a name to the front, and answers where it ends.
fn write_name(d: &mut [u8], name: &[u8]) -> usize
    requires { 6 + length name.now ≤ length d.old }
    ensures { outcome result d.new ≡ writing (line name_word name.now) d.old }
{
    let end = 5 + name.len();
    octet_writer::copy(d, 0, b"name ");
    octet_writer::copy(d, 5, name);
    octet_writer::copy(d, end, b"\n");
    end + 1
}

// Writes the lines about an accepted pack, and answers where they end.
fn write_pack(d: &mut [u8], name: &[u8], key: u8, samples: usize, loops: usize) -> usize
    requires { (length name.now ≤ 32) × (128 ≤ length d.old) }
    ensures { outcome result d.new
        ≡ writing (pack_lines name.now key samples loops) d.old }
{
    let key_at = write_name(d, name);
    let samples_at = write_line(d, key_at, b"key ", key as u64);
    let loops_at = write_line(d, samples_at, b"samples ", samples as u64);
    write_line(d, loops_at, b"loops ", loops as u64)
}

// Writes the line about a refusal, and answers where it ends. What nothing lacks has one number.
fn write_refused(d: &mut [u8], flaw: Flaw) -> usize
    requires { 128 ≤ length d.old }
    ensures { outcome result d.new
        ≡ writing (refused_line flaw.lacks (number_of flaw.refusal)) d.old }
{
    let number = refusals::number(Err(flaw.refusal)) as u64;
    if flaw.lacks == 0 {
        return write_line(d, 0, b"refused ", number);
    }
    octet_writer::copy(d, 0, b"refused ");
    let end = write_decimal(d, 8, number);
    write_line(d, end, b" ", flaw.lacks as u64)
}

// What the pack behind the keys says of itself, under these keys.
fn inspected(input: &[u8]) -> Result<Opened, Flaw>
    requires { keys_bytes ≤ length input.now }
    ensures { opening_of result ≡ inspecting_file (keys_in input.now) (pack_in input.now) }
{
    let (keys, file) = input.split_at(rings::KEYS_BYTES);
    let rings = rings::rings_in(keys)?;
    inspector::inspect(file, rings)
}

// Writes the text where there is room for it, whatever it says.
fn write_text(d: &mut [u8], input: &[u8]) -> usize
    requires { 128 ≤ length d.old }
    ensures { outcome result d.new
        ≡ writing (text_of input.now) d.old }
{
    if input.len() < rings::KEYS_BYTES {
        return write_refused(d, Refusal::BadKey.into());
    }
    match inspected(input) {
        Ok(opened) => {
            let file = &input[rings::KEYS_BYTES..];
            let name = octets::slice(file, opened.name_at, opened.name_length);
            write_pack(d, name, opened.key, opened.samples, opened.loops)
        }
        Err(flaw) => write_refused(d, flaw),
    }
}

// Writes what the reading program prints of its input to the front of a buffer, if it has room there, and answers how
// long it is, room or not.
pub fn describe(input: &[u8], text: &mut [u8]) -> usize
    ensures { outcome result text.new
        ≡ writing (text_of input.now) text.old }
{
    // room for the longest text, whatever its numbers
    let mut lines = [0; 128];
    let length = write_text(&mut lines, input);
    octet_writer::copy(text, 0, &lines[..length]);
    length
}
