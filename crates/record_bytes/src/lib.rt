#![tactic(auto)]

// What records that a caller keeps as bytes have in common.
ghost use Rattle.std.specs.Prelude.{◌≡◌};
ghost use Rattle.octets.specs.Buffers.{put};
ghost use Rattle.record_bytes.specs.Front.{front_bytes, front_in};
ghost use Rattle.record_bytes.specs.SixWords.{six_bytes, six_in};

use names::Names;
use shift_registers::SixWords;

// The beginning of both link ends' records.
#[derive(Clone, Copy)]
pub struct Front {
    pub key: [u8; 10],
    pub pair: [u8; 6],
    pub session: u32,
    pub length: u32,
}

const FRONT_BYTES: usize = 24;

// The front that the bytes begin with.
pub fn front_in(bytes: &[u8]) -> Front
    ensures { result ≡ front_in bytes.now }
{
    let names = names::check_names(octets::slice(bytes, 0, 10), octets::slice(bytes, 10, 6));
    let Names { key, pair } = names.unwrap_or(Names {
        key: [0; 10],
        pair: [0; 6],
    });
    Front {
        key,
        pair,
        session: octets::four_at(bytes, 16),
        length: octets::four_at(bytes, 20),
    }
}

// Writes a front's bytes to the front of a buffer, if they have room there.
pub fn write_front(d: &mut [u8], front: Front)
    ensures { d.new ≡ put d.old 0 (front_bytes front) }
{
    if d.len() < FRONT_BYTES {
        return;
    }
    octet_writer::copy(d, 0, &front.key);
    octet_writer::copy(d, 10, &front.pair);
    octet_writer::write_number(d, 16, 4, front.session as u64);
    octet_writer::write_number(d, 20, 4, front.length as u64);
}

// How many bytes six words are, the records of the ciphers on three registers.
const SIX_WORDS_BYTES: usize = 48;

// The six words that the bytes begin with; of too few bytes, zeros. The length is asked first, for the compiler to see
// that none of the bytes is missing.
pub fn six_words_in(bytes: &[u8]) -> SixWords
    ensures { result ≡ six_in bytes.now }
{
    if bytes.len() < SIX_WORDS_BYTES {
        return SixWords::default();
    }
    SixWords {
        a1: octets::number_at(bytes, 0, 8),
        a0: octets::number_at(bytes, 8, 8),
        b1: octets::number_at(bytes, 16, 8),
        b0: octets::number_at(bytes, 24, 8),
        c1: octets::number_at(bytes, 32, 8),
        c0: octets::number_at(bytes, 40, 8),
    }
}

// Writes six words' bytes to the front of a buffer, if they have room there.
#[tactic(auto, using(crate::proofs::Sixes::six_none))]
pub fn write_six_words(d: &mut [u8], words: SixWords)
    ensures { d.new ≡ put d.old 0 (six_bytes words) }
{
    if d.len() < SIX_WORDS_BYTES {
        return;
    }
    octet_writer::write_word(d, 0, words.a1);
    octet_writer::write_word(d, 8, words.a0);
    octet_writer::write_word(d, 16, words.b1);
    octet_writer::write_word(d, 24, words.b0);
    octet_writer::write_word(d, 32, words.c1);
    octet_writer::write_word(d, 40, words.c0);
}

// Numbers for a caller, at the front of a run, if they have room there.
pub fn write_numbers(d: &mut [usize], numbers: &[usize])
    ensures { d.new ≡ put d.old 0 numbers.now }
{
    let n = numbers.len();
    if n <= d.len() {
        d[..n].copy_from_slice(numbers);
    }
}
