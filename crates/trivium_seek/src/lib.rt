#![tactic(auto)]

// Where in its keystream a Trivium cipher stands: made at the start of it or further on, and moved on.
ghost use Rattle.std.specs.Prelude.{◌≡◌, ◌*◌, length};
ghost use Rattle.refusals.specs.Answers.{answer_or};
ghost use Rattle.trivium.specs.Calls.{blank, making_cipher, making_at, skipping};
ghost use Rattle.trivium.specs.Record.{state};
ghost use Rattle.trivium.specs.Registers.{loaded};

use refusals::Refusal;
use trivium::{Registers, Running, SixWords};

// The blank rounds, as strides.
const WARM_UP: usize = 18;

// The registers before warm-up. Key and initial value come in with their first bit as the oldest.
fn load(key: &[u8], iv: &[u8]) -> Registers
    requires { (length key.now ≡ 10) × (length iv.now ≡ 10) }
    ensures { state result ≡ loaded key.now iv.now }
{
    Registers {
        words: SixWords {
            a1: octets::number_at(key, 0, 2),
            a0: octets::number_at(key, 2, 8),
            b1: octets::number_at(iv, 0, 2),
            b0: octets::number_at(iv, 2, 8),
            c1: 7 << 44,
            c0: 0,
        },
    }
}

// The registers after so many strides whose bits nobody takes, with no spare bit.
fn pass(registers: Registers, strides: usize) -> Registers
    ensures { result ≡ skipping registers (8 * strides) }
{
    let mut running = Running::of(registers);
    for _ in 0..strides {
        running = running.stride().next;
    }
    running.stop()
}

// A cipher, warmed up, from a key and an initial value of ten bytes each.
pub fn make(key: &[u8], iv: &[u8]) -> Result<Registers, Refusal>
    ensures { answer_or blank result ≡ making_cipher key.now iv.now }
{
    make_at(key, iv, 0)
}

// The same, moved on by so many strides. Blank rounds and rounds passed over are one loop: with a count that it can't
// see, the compiler keeps one copy of it for whoever makes a cipher.
pub fn make_at(key: &[u8], iv: &[u8], strides: u32) -> Result<Registers, Refusal>
    ensures { answer_or blank result ≡ making_at key.now iv.now strides }
{
    if key.len() != trivium::KEY_BYTES {
        return Err(Refusal::BadKey);
    }
    if iv.len() != trivium::VALUE_BYTES {
        return Err(Refusal::BadValue);
    }
    Ok(pass(load(key, iv), WARM_UP + strides as usize))
}

// The registers after so many bytes of keystream that nobody takes.
pub fn skip(registers: Registers, bytes: usize) -> Registers
    ensures { result ≡ skipping registers bytes }
{
    let passed = pass(registers, bytes / 8);
    passed.short_stride(8 * (bytes % 8)).next
}
