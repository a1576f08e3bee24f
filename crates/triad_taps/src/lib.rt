#![tactic(auto)]

// TRIAD's update function on words that stand turned: the newest bit of a word is its most significant.
ghost use Rattle.std.specs.Prelude.{[], ◌∷◌, ◌≡◌, ◌%◌};
ghost use Rattle.octets.specs.LowFirst.{bits_up};
ghost use Rattle.triad_taps.specs.Words.{of_words, newest};

use shift_registers::{Newest, SixWords};

// One update, which takes the lowest bit of the message. Bit 64 of a register is the lowest of its newer word, and the
// taps behind it are in its older word.
pub fn step(words: SixWords, message: u64) -> Newest
    ensures { result ≡ newest (message % 2 ∷ []) (of_words words) }
{
    let SixWords {
        a1,
        a0,
        b1,
        b0,
        c1,
        c0,
    } = words;
    let t1 = (a1 >> 60) ^ (a1 >> 48) ^ ((b1 >> 43) & (c1 >> 43));
    let t2 = b0 ^ (b1 >> 40);
    let t3 = (c1 >> 60) ^ (c1 >> 40);
    let new1 = t1 ^ ((a1 >> 55) & (a1 >> 49)) ^ (b1 >> 62) ^ message;
    let new2 = t2 ^ ((b1 >> 63) & (b1 >> 41)) ^ (c1 >> 44) ^ message;
    let new3 = t3 ^ ((c1 >> 51) & (c1 >> 41)) ^ (a1 >> 54) ^ message;
    Newest {
        z: (t1 ^ t2 ^ t3) % 2,
        a: (new3 << 63) | (a0 >> 1),
        b: (new1 << 63) | (b0 >> 1),
        c: (new2 << 63) | (c0 >> 1),
    }
}

// 64 updates at once, which take the bits of the message from the lowest on: none of their taps reaches a bit that
// comes in on the way.
pub fn stride(words: SixWords, message: u64) -> Newest
    ensures { result ≡ newest (bits_up 64 message) (of_words words) }
{
    let SixWords {
        a1,
        a0,
        b1,
        b0,
        c1,
        c0,
    } = words;
    let t1 = ((a0 << 4) | (a1 >> 60))
        ^ ((a0 << 16) | (a1 >> 48))
        ^ (((b0 << 21) | (b1 >> 43)) & ((c0 << 21) | (c1 >> 43)));
    let t2 = b0 ^ ((b0 << 24) | (b1 >> 40));
    let t3 = ((c0 << 4) | (c1 >> 60)) ^ ((c0 << 24) | (c1 >> 40));
    Newest {
        z: t1 ^ t2 ^ t3,
        a: t3
            ^ (((c0 << 13) | (c1 >> 51)) & ((c0 << 23) | (c1 >> 41)))
            ^ ((a0 << 10) | (a1 >> 54))
            ^ message,
        b: t1
            ^ (((a0 << 9) | (a1 >> 55)) & ((a0 << 15) | (a1 >> 49)))
            ^ ((b0 << 2) | (b1 >> 62))
            ^ message,
        c: t2
            ^ (((b0 << 1) | (b1 >> 63)) & ((b0 << 23) | (b1 >> 41)))
            ^ ((c0 << 20) | (c1 >> 44))
            ^ message,
    }
}
