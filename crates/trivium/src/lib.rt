#![tactic(auto)]

ghost use Rattle.std.specs.Prelude.{◌≡◌, min, length};
ghost use Rattle.octets.specs.Stream.{enciphered};
ghost use Rattle.refusals.specs.Answers.{answer_or};
ghost use Rattle.refusals.specs.Outcome.{outcome};
ghost use Rattle.taps.specs.Keystream.{keystream};
ghost use Rattle.taps.specs.Registers.{steps};
ghost use Rattle.taps.specs.Words.{newest};
ghost use Rattle.trivium.specs.Calls.{stepping, strides, striding, short_striding, running_from, running, stopping};
ghost use Rattle.trivium.specs.Calls.{skipping, covering, enciphering};
ghost use Rattle.trivium.specs.Record.{state};

use ciphers::StreamCipher;
use refusals::Refusal;
pub use shift_registers::SixWords;
use shift_registers::{Newest, shifted};

// The 288 bits: a register's upper bits stand in its word 1 and its 64 newest in its word 0, the newest of all as the
// lowest bit.
#[derive(Clone, Copy, PartialEq, Eq)]
pub struct Registers {
    pub words: SixWords,
}

#[derive(Clone, Copy)]
pub struct Stepped {
    pub bit: u8,
    pub next: Registers,
}

#[derive(Clone, Copy)]
pub struct Strode {
    pub word: u64,
    pub next: Registers,
}

// Registers in a run of strides. A stride here moves whole words and clears nothing, so a register's word 1 goes on
// holding bits that the cipher is done with. This is no cipher record, and nobody else can take one out of it but by
// `stop`, which clears them.
#[derive(Clone, Copy)]
pub struct Running {
    registers: Registers,
}

#[derive(Clone, Copy)]
pub struct Ran {
    pub word: u64,
    pub next: Running,
}

pub const KEY_BYTES: usize = 10;

pub const VALUE_BYTES: usize = 10;

// One more than the highest number that a register's upper word holds of it: 29 of 93 bits, 20 of 84 and 47 of 111.
const A_TOP: u64 = 1 << 29;

const B_TOP: u64 = 1 << 20;

const C_TOP: u64 = 1 << 47;

impl Registers {
    // n bits and n steps, 64 at most, by what the taps give for them. The upper words move up, and spare bits go.
    fn moved(self, n: usize, new: Newest) -> Strode
        requires { new ≡ newest (min n 64) (state self) }
        ensures { result ≡ strides (min n 64) self }
    {
        let old = self.words;
        Strode {
            word: new.z,
            next: Registers {
                words: SixWords {
                    a1: shifted(old.a1, old.a0, n) % A_TOP,
                    a0: new.a,
                    b1: shifted(old.b1, old.b0, n) % B_TOP,
                    b0: new.b,
                    c1: shifted(old.c1, old.c0, n) % C_TOP,
                    c0: new.c,
                },
            },
        }
    }

    // One bit and one step.
    pub fn step(self) -> Stepped
        ensures { result ≡ stepping self }
    {
        let Strode { word, next } = self.moved(1, taps::step(self.words));
        Stepped {
            bit: word as u8,
            next,
        }
    }

    // 64 bits and 64 steps.
    pub fn stride(self) -> Strode
        ensures { result ≡ striding self }
    {
        self.moved(64, taps::stride(self.words))
    }

    // A part of a stride: n bits and n steps, and 64 if n is more.
    pub fn short_stride(self, n: usize) -> Strode
        ensures { result ≡ short_striding self n }
    {
        self.moved(n, taps::short_stride(self.words, n))
    }

    // The input under the keystream, to the front of the output.
    pub fn encipher(self, input: &[u8], output: &mut [u8]) -> Result<Registers, Refusal>
        ensures { outcome (answer_or self result) output.new
            ≡ enciphering self input.now output.old }
    {
        ciphers::encipher(self, input, output)
    }
}

impl StreamCipher for Registers {
    ghost ahead = { λ r. keystream (state r) };

    ghost moved = { skipping };

    fn cover(self, bytes: &mut [u8]) -> Registers {
        let mut running = Running::of(self);
        let sixteens = bytes.len() / 16;
        for i in 0..sixteens {
            running = running.cover_sixteen(&mut bytes[16 * i..16 * i + 16]);
        }
        running.cover_rest(&mut bytes[16 * sixteens..])
    }
}

impl Running {
    // A run from a cipher record, with every word as it is.
    pub fn of(registers: Registers) -> Running
        ensures { result ≡ running_from registers }
    {
        Running { registers }
    }

    // The cipher record where the run has come to.
    pub fn stop(self) -> Registers
        ensures { result ≡ stopping self }
    {
        let last = self.registers.words;
        Registers {
            words: SixWords {
                a1: last.a1 % A_TOP,
                b1: last.b1 % B_TOP,
                c1: last.c1 % C_TOP,
                ..last
            },
        }
    }

    // 64 bits and 64 steps, as `Registers::stride`; three words fewer to clear at each turn of a loop.
    pub fn stride(self) -> Ran
        ensures { result ≡ running self }
    {
        let old = self.registers.words;
        let new = taps::stride(old);
        Ran {
            word: new.z,
            next: Running {
                registers: Registers {
                    words: SixWords {
                        a1: old.a0,
                        a0: new.a,
                        b1: old.b0,
                        b0: new.b,
                        c1: old.c0,
                        c0: new.c,
                    },
                },
            },
        }
    }

    // Sixteen bytes under the keystream where they stand. After two strides each word of the registers is back in its
    // place: a loop of these moves none. Bytes are loaded and stored as they stand, and the keystream is turned; whether
    // they have room is tested nowhere, since the compiler sees how many are lent.
    fn cover_sixteen(self, bytes: &mut [u8]) -> Running
        requires { length bytes.old ≡ 16 }
        ensures { (state result.registers ≡ steps 128 (state self.registers))
            × (bytes.new ≡ enciphered (keystream (state self.registers)) bytes.old) }
    {
        let first = samples::eight_from(bytes, 0);
        let second = samples::eight_from(bytes, 8);
        let one = self.stride();
        let two = one.next.stride();
        octet_writer::write_low(bytes, 0, first ^ samples::swapped(one.word));
        octet_writer::write_low(bytes, 8, second ^ samples::swapped(two.word));
        two.next
    }

    // The few bytes behind the sixteens under the keystream where they stand, eight or what is left of them at a turn;
    // and the record behind them.
    fn cover_rest(self, bytes: &mut [u8]) -> Registers
        ensures { outcome result bytes.new ≡ covering self.registers bytes.old }
    {
        let mut registers = self.stop();
        for at in (0..bytes.len()).step_by(8) {
            let n = (bytes.len() - at).min(8);
            let strode = registers.short_stride(8 * n);
            octet_writer::cover(bytes, at, n, strode.word);
            registers = strode.next;
        }
        registers
    }
}
