#![tactic(auto)]

ghost use Rattle.std.specs.Prelude.{reverse, ◌/◌, ◌%◌, ◌^◌, ◌≡◌, ◌<◌, ◌≤◌, length};
ghost use Rattle.octets.specs.Buffers.{slice};
ghost use Rattle.octets.specs.Digits.{number};
ghost use Rattle.octets.specs.Stream.{enciphered};
ghost use Rattle.refusals.specs.Answers.{answer_or};
ghost use Rattle.triad.specs.Calls.{blank, making_by, making_cipher, making_tag, stepping, striding};
ghost use Rattle.triad.specs.Calls.{running, short_striding, tagging, ahead, skipping};
ghost use Rattle.triad.specs.Record.{state, packed};
ghost use Rattle.triad.specs.State.{loaded, permuted};

use ciphers::StreamCipher;
use refusals::Refusal;
pub use shift_registers::SixWords;
use shift_registers::shifted;

// The 256 bits: a register's 64 newest bits stand in its word 0 and its older ones in its word 1, the newest of each
// word as the most significant bit, so that the older word's lowest bits are spare.
#[derive(Clone, Copy, PartialEq, Eq)]
pub struct Registers {
    pub words: SixWords,
}

#[derive(Clone, Copy)]
pub struct Stepped {
    pub bit: u8,
    pub next: Registers,
}

#[derive(Clone, Copy)]
pub struct Strode {
    pub word: u64,
    pub next: Registers,
}

pub const KEY_BYTES: usize = 16;

pub const VALUE_BYTES: usize = 12;

// The updates of a permutation behind its first 64, as strides.
const MORE_STRIDES: usize = 15;

// The registers before any permutation. A register's first byte is its newest, with its most significant bit as the
// newest, so a word is the number that its bytes make as they are printed.
fn load(key: &[u8], nonce: &[u8]) -> Registers
    requires { (length key.now ≡ 16) × (length nonce.now ≡ 12) }
    ensures { state result ≡ loaded key.now nonce.now }
{
    let words = SixWords {
        a1: u64::from_be_bytes([0xfe, key[0], 0, 0, 0, 0, 0, 0]),
        a0: u64::from_be_bytes([nonce[0], key[4], 0xff, key[3], 0xff, key[2], 0xff, key[1]]),
        b1: u64::from_be_bytes([nonce[3], nonce[2], nonce[1], 0, 0, 0, 0, 0]),
        b0: samples::eight_from(nonce, 4),
        c1: u64::from_be_bytes([key[7], key[6], key[5], 0, 0, 0, 0, 0]),
        c0: samples::eight_from(key, 8),
    };
    Registers { words }
}

// The number that a run's first eight bytes make, or as many as are there, the least significant first.
pub fn word_in(bytes: &[u8]) -> u64
    ensures { result ≡ number 256 (reverse (slice bytes.now 0 8)) }
{
    let n = bytes.len().min(8);
    let mut word = [0; 8];
    word[..n].copy_from_slice(&bytes[..n]);
    u64::from_le_bytes(word)
}

// Up to eight bytes under a word of keystream, where they stand.
fn cover_word(bytes: &mut [u8], stream: u64)
    requires { length bytes.old ≤ 8 }
    ensures { bytes.new ≡ enciphered (λ i. stream / 256 ^ i % 256) bytes.old }
{
    let n = bytes.len();
    let covered = (word_in(bytes) ^ stream).to_le_bytes();
    bytes.copy_from_slice(&covered[..n]);
}

impl Registers {
    // 64 updates, which take the bits of a message from the lowest on. Whole words move and nothing is cleared, so an
    // older word goes on holding bits that the cipher is done with. This is for loops, which spare three words to clear
    // at each turn: what they leave goes through `cleared` or `short_stride`.
    pub fn run(self, message: u64) -> Strode
        ensures { result ≡ running self message }
    {
        let old = self.words;
        let new = triad_taps::stride(old, message);
        let words = SixWords {
            a1: old.a0,
            a0: new.a,
            b1: old.b0,
            b0: new.b,
            c1: old.c0,
            c0: new.c,
        };
        Strode {
            word: new.z,
            next: Registers { words },
        }
    }

    // The same registers with every spare bit zero.
    pub fn cleared(self) -> Registers
        ensures { result ≡ packed (state self) }
    {
        let old = self.words;
        let words = SixWords {
            a1: (old.a1 >> 48) << 48,
            b1: (old.b1 >> 40) << 40,
            c1: (old.c1 >> 40) << 40,
            ..old
        };
        Registers { words }
    }

    // 1,024 updates, of which the first takes a bit.
    fn permuted(self, first: u64) -> Registers
        requires { first < 2 }
        ensures { state result ≡ permuted first (state self) }
    {
        let mut registers = self.run(first).next;
        for _ in 0..MORE_STRIDES {
            registers = registers.run(0).next;
        }
        registers
    }

    // Registers from a key of 16 bytes and a nonce of twelve, behind the permutation whose first update takes a bit.
    fn made(key: &[u8], nonce: &[u8], first: u64) -> Result<Registers, Refusal>
        requires { first < 2 }
        ensures { answer_or blank result ≡ making_by first key.now nonce.now }
    {
        if key.len() != KEY_BYTES {
            return Err(Refusal::BadKey);
        }
        if nonce.len() != VALUE_BYTES {
            return Err(Refusal::BadValue);
        }
        Ok(load(key, nonce).permuted(first).cleared())
    }

    // Registers for a keystream.
    pub fn new(key: &[u8], nonce: &[u8]) -> Result<Registers, Refusal>
        ensures { answer_or blank result ≡ making_cipher key.now nonce.now }
    {
        Registers::made(key, nonce, 0)
    }

    // Registers for a tag.
    pub fn new_tag(key: &[u8], nonce: &[u8]) -> Result<Registers, Refusal>
        ensures { answer_or blank result ≡ making_tag key.now nonce.now }
    {
        Registers::made(key, nonce, 1)
    }

    // One update, which takes the lowest bit of a message.
    pub fn step(self, message: u64) -> Stepped
        ensures { result ≡ stepping self message }
    {
        let old = self.words;
        let new = triad_taps::step(old, message);
        let words = SixWords {
            a1: shifted(old.a0, old.a1, 63),
            a0: new.a,
            b1: shifted(old.b0, old.b1, 63),
            b0: new.b,
            c1: shifted(old.c0, old.c1, 63),
            c0: new.c,
        };
        Stepped {
            bit: new.z as u8,
            next: Registers { words }.cleared(),
        }
    }

    // 64 updates.
    pub fn stride(self, message: u64) -> Strode
        ensures { result ≡ striding self message }
    {
        let ran = self.run(message);
        Strode {
            word: ran.word,
            next: ran.next.cleared(),
        }
    }

    // The word of 64 updates, and the registers after n of them, or after all where n is more.
    pub fn short_stride(self, message: u64, n: usize) -> Strode
        ensures { result ≡ short_striding self message n }
    {
        let old = self.words;
        let new = triad_taps::stride(old, message);
        let left = 64 - n.min(64);
        let words = SixWords {
            a1: shifted(old.a0, old.a1, left),
            a0: shifted(new.a, old.a0, left),
            b1: shifted(old.b0, old.b1, left),
            b0: shifted(new.b, old.b0, left),
            c1: shifted(old.c0, old.c1, left),
            c0: shifted(new.c, old.c0, left),
        };
        Strode {
            word: new.z,
            next: Registers { words }.cleared(),
        }
    }

    // The tag of all that was taken in: its eight bytes as a number.
    pub fn tag(self) -> u64
        ensures { result ≡ tagging self }
    {
        let last = self.permuted(1).run(0);
        samples::swapped(last.word)
    }
}

impl StreamCipher for Registers {
    ghost ahead = { ahead };

    ghost moved = { skipping };

    // In the loop the registers move word by word and clear nothing, and a part of a stride behind it takes what is left
    // and clears what they leave.
    fn cover(self, bytes: &mut [u8]) -> Registers {
        let words = bytes.len() / 8;
        let mut moved = self;
        for i in 0..words {
            let ran = moved.run(0);
            cover_word(&mut bytes[8 * i..8 * i + 8], ran.word);
            moved = ran.next;
        }
        let rest = &mut bytes[8 * words..];
        let ran = moved.short_stride(0, 8 * rest.len());
        cover_word(rest, ran.word);
        ran.next
    }
}
