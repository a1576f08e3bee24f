#![tactic(auto)]

ghost use Rattle.std.specs.Prelude.{◌≡◌};
ghost use Rattle.shift_registers.specs.Words.{shifted};

// Three registers in two words each, the older word of a register as its 1 and the newer as its 0.
#[derive(Clone, Copy, Default, PartialEq, Eq)]
pub struct SixWords {
    pub a1: u64,
    pub a0: u64,
    pub b1: u64,
    pub b0: u64,
    pub c1: u64,
    pub c0: u64,
}

// What steps put out, and what each register then has as its newest word.
#[derive(Clone, Copy)]
pub struct Newest {
    pub z: u64,
    pub a: u64,
    pub b: u64,
    pub c: u64,
}

// 64 bits of two words, from the one that has n before it. The compiler drops what isn't asked for: n is a literal, or
// tested once for all words that are shifted by it.
pub fn shifted(upper: u64, lower: u64, n: usize) -> u64
    ensures { result ≡ shifted upper lower n }
{
    if n == 0 {
        return upper;
    }
    if 64 <= n {
        return lower;
    }
    (upper << n) | (lower >> (64 - n))
}
