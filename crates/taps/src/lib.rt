#![tactic(auto)]

ghost use Rattle.std.specs.Prelude.{◌≡◌, min};
ghost use Rattle.taps.specs.Words.{of_words, newest};

use shift_registers::{Newest, SixWords, shifted};

// One step. Every tap lies 66 bits back or more, so all of them are in the upper words.
pub fn step(words: SixWords) -> Newest
    ensures { result ≡ newest 1 (of_words words) }
{
    let SixWords { a1, b1, c1, .. } = words;
    let from_a = (a1 >> 1) ^ (a1 >> 28);
    let from_b = (b1 >> 4) ^ (b1 >> 19);
    let from_c = (c1 >> 1) ^ (c1 >> 46);
    Newest {
        z: (from_c ^ from_a ^ from_b) % 2,
        a: (words.a0 << 1) | ((from_c ^ ((c1 >> 45) & (c1 >> 44)) ^ (a1 >> 4)) % 2),
        b: (words.b0 << 1) | ((from_a ^ ((a1 >> 27) & (a1 >> 26)) ^ (b1 >> 13)) % 2),
        c: (words.c0 << 1) | ((from_b ^ ((b1 >> 18) & (b1 >> 17)) ^ (c1 >> 22)) % 2),
    }
}

// 64 steps at once: none of their taps reaches a bit that comes in on the way.
pub fn stride(words: SixWords) -> Newest
    ensures { result ≡ newest 64 (of_words words) }
{
    let SixWords {
        a1,
        a0,
        b1,
        b0,
        c1,
        c0,
    } = words;
    let from_a = ((a1 << 62) | (a0 >> 2)) ^ ((a1 << 35) | (a0 >> 29));
    let from_b = ((b1 << 59) | (b0 >> 5)) ^ ((b1 << 44) | (b0 >> 20));
    let from_c = ((c1 << 62) | (c0 >> 2)) ^ ((c1 << 17) | (c0 >> 47));
    Newest {
        z: from_c ^ from_a ^ from_b,
        a: from_c
            ^ (((c1 << 18) | (c0 >> 46)) & ((c1 << 19) | (c0 >> 45)))
            ^ ((a1 << 59) | (a0 >> 5)),
        b: from_a
            ^ (((a1 << 36) | (a0 >> 28)) & ((a1 << 37) | (a0 >> 27)))
            ^ ((b1 << 50) | (b0 >> 14)),
        c: from_b
            ^ (((b1 << 45) | (b0 >> 19)) & ((b1 << 46) | (b0 >> 18)))
            ^ ((c1 << 41) | (c0 >> 23)),
    }
}

// The first n of those 64 steps.
pub fn short_stride(words: SixWords, n: usize) -> Newest
    ensures { result ≡ newest (min n 64) (of_words words) }
{
    let all = stride(words);
    Newest {
        z: shifted(0, all.z, n),
        a: shifted(words.a0, all.a, n),
        b: shifted(words.b0, all.b, n),
        c: shifted(words.c0, all.c, n),
    }
}
