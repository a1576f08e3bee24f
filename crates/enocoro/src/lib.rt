#![tactic(auto)]

ghost use Rattle.std.specs.Prelude.{◌≡◌, ◌+◌, ◌-◌, ◌≤◌, length};
ghost use Rattle.octets.specs.Digits.{number_at, word};
ghost use Rattle.refusals.specs.Answers.{answer_or};
ghost use Rattle.refusals.specs.Outcome.{outcome};
ghost use Rattle.enocoro.specs.Calls.{blank, loading, making_cipher, warming, ahead, skipping, covering};
ghost use Rattle.enocoro.specs.Record.{state, packed};
ghost use Rattle.enocoro.specs.State.{next};
ghost use Rattle.enocoro.specs.Window.{mixing, windowed};

use ciphers::StreamCipher;
use refusals::Refusal;

// The 34 bytes: the two bytes a, and the 32 bytes b in words of eight, the first of them as the most significant.
#[derive(Clone, Copy, PartialEq, Eq)]
pub struct Registers {
    pub a0: u8,
    pub a1: u8,
    pub b0: u64,
    pub b1: u64,
    pub b2: u64,
    pub b3: u64,
}

// A round's byte, and the registers behind it.
#[derive(Clone, Copy)]
pub struct Rounded {
    pub byte: u8,
    pub next: Registers,
}

pub const KEY_BYTES: usize = 16;

pub const VALUE_BYTES: usize = 8;

const BLANK_ROUNDS: usize = 96;

// The two bytes a.
#[derive(Clone, Copy)]
struct Pair {
    a0: u8,
    a1: u8,
}

impl Pair {
    // What rho makes of them, from the bytes b2, b7, b16 and b29.
    fn mixed(self, b2: u8, b7: u8, b16: u8, b29: u8) -> Pair
        ensures { result ≡ mixing self.a0 self.a1 b2 b7 b16 b29 }
    {
        let u0 = self.a0 ^ sbox::s8(b2);
        let u1 = self.a1 ^ sbox::s8(b7);
        Pair {
            a0: u0 ^ u1 ^ sbox::s8(b16),
            a1: u0 ^ sbox::twice(u1) ^ sbox::s8(b29),
        }
    }
}

// One round over a window that has the bytes b from `at` on. All but four of them stay where they are, and from then on
// they begin one place earlier. What it reads it reads before the first store, all of it from the old state.
fn slide(w: &mut [u8; 288], at: usize, a: Pair) -> Pair
    requires { (1 ≤ at) × (at + 32 ≤ 288) }
    ensures { windowed w.new (at - 1) result.a0 result.a1 ≡ next (windowed w.old at a.a0 a.a1) }
{
    let b2 = w[at + 2];
    let b6 = w[at + 6];
    let b7 = w[at + 7];
    let b15 = w[at + 15];
    let b16 = w[at + 16];
    let b28 = w[at + 28];
    let b29 = w[at + 29];
    let b31 = w[at + 31];
    let next = a.mixed(b2, b7, b16, b29);
    w[at - 1] = b31 ^ a.a0;
    w[at + 2] = b2 ^ b6;
    w[at + 7] = b7 ^ b15;
    w[at + 16] = b16 ^ b28;
    next
}

// Eight bytes from `at`, all of them there, as a word. They are lent by themselves, for the compiler to see that none is
// missing.
fn word_there(w: &[u8], at: usize) -> u64
    requires { at + 8 ≤ length w.now }
    ensures { result ≡ word (number_at w.now at 8) }
{
    octets::number_at(&w[at..at + 8], 0, 8)
}

// The registers whose bytes b a window has from `at` on.
fn taken(w: &[u8], at: usize, a: Pair) -> Registers
    requires { at + 32 ≤ length w.now }
    ensures { result ≡ packed (windowed w.now at a.a0 a.a1) }
{
    Registers {
        a0: a.a0,
        a1: a.a1,
        b0: word_there(w, at),
        b1: word_there(w, at + 8),
        b2: word_there(w, at + 16),
        b3: word_there(w, at + 24),
    }
}

impl Registers {
    // Key and initial value in their places, before any round. Whoever wants a cipher takes `new`.
    pub fn load(key: &[u8], iv: &[u8]) -> Result<Registers, Refusal>
        ensures { answer_or blank result ≡ loading key.now iv.now }
    {
        if key.len() != KEY_BYTES {
            return Err(Refusal::BadKey);
        }
        if iv.len() != VALUE_BYTES {
            return Err(Refusal::BadValue);
        }
        Ok(Registers {
            a0: 0x88,
            a1: 0x4c,
            b0: octets::number_at(key, 0, 8),
            b1: octets::number_at(key, 8, 8),
            b2: octets::number_at(iv, 0, 8),
            b3: 0x66e94bd4ef8a2c3b,
        })
    }

    // A cipher, after its blank rounds, from a key of 16 bytes and an initial value of eight.
    pub fn new(key: &[u8], iv: &[u8]) -> Result<Registers, Refusal>
        ensures { answer_or blank result ≡ making_cipher key.now iv.now }
    {
        let loaded = Registers::load(key, iv)?;
        Ok(loaded.warmed_up())
    }

    // A window with the bytes b at its end.
    fn window(self) -> [u8; 288]
        ensures { windowed result 256 self.a0 self.a1 ≡ state self }
    {
        let mut w = [0; 288];
        octet_writer::write_word(&mut w, 256, self.b0);
        octet_writer::write_word(&mut w, 264, self.b1);
        octet_writer::write_word(&mut w, 272, self.b2);
        octet_writer::write_word(&mut w, 280, self.b3);
        w
    }

    fn pair(self) -> Pair
        ensures { result ≡ record { a0 = self.a0; a1 = self.a1 } }
    {
        Pair {
            a0: self.a0,
            a1: self.a1,
        }
    }

    // All blank rounds: before each, its counter goes into the last byte b.
    fn warmed_up(self) -> Registers
        ensures { result ≡ warming self }
    {
        let mut w = self.window();
        let mut a = self.pair();
        let mut counter = 1;
        for round in 0..BLANK_ROUNDS {
            w[287 - round] ^= counter;
            counter = sbox::twice(counter);
            a = slide(&mut w, 256 - round, a);
        }
        taken(&w, 256 - BLANK_ROUNDS, a)
    }

    // At most 256 bytes enciphered where they stand: as many rounds as a window has room for before the bytes b.
    fn cover_stretch(self, bytes: &mut [u8]) -> Registers
        requires { length bytes.old ≤ 256 }
        ensures { outcome result bytes.new ≡ covering self bytes.old }
    {
        let mut w = self.window();
        let mut a = self.pair();
        for (i, byte) in bytes.iter_mut().enumerate() {
            *byte ^= a.a1;
            a = slide(&mut w, 256 - i, a);
        }
        taken(&w, 256 - bytes.len(), a)
    }
}

impl StreamCipher for Registers {
    ghost ahead = { ahead };

    ghost moved = { skipping };

    // Stretch by stretch.
    fn cover(self, bytes: &mut [u8]) -> Registers {
        let mut registers = self;
        for at in (0..bytes.len()).step_by(256) {
            let end = bytes.len().min(at + 256);
            registers = registers.cover_stretch(&mut bytes[at..end]);
        }
        registers
    }
}
