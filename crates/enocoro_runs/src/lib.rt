#![tactic(auto)]

// Enocoro's registers moved on: over one byte, which is answered, and over bytes that nobody reads.
ghost use Rattle.std.specs.Prelude.{◌≡◌};
ghost use Rattle.enocoro.specs.Calls.{rounding, skipping};

use ciphers::StreamCipher;
use enocoro::{Registers, Rounded};

// One byte and one round.
pub fn round(registers: Registers) -> Rounded
    ensures { result ≡ rounding registers }
{
    Rounded {
        byte: registers.a1,
        next: registers.cover(&mut [0]),
    }
}

// The registers after so many bytes of keystream that nobody takes: they go over bytes that nobody reads.
pub fn skip(registers: Registers, bytes: usize) -> Registers
    ensures { result ≡ skipping registers bytes }
{
    let mut unread = [0; 256];
    let mut moved = registers;
    for _ in 0..bytes / 256 {
        moved = moved.cover(&mut unread);
    }
    moved.cover(&mut unread[..bytes % 256])
}
