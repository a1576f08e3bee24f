#![tactic(auto)]

// Words that look random, for test programs.
ghost use Rattle.std.specs.Prelude.{◌≡◌};
ghost use Rattle.test_shuffle.specs.Shuffles.{shuffling};

// A word of Marsaglia's xorshift generator from the word before it. It goes through every word but 0.
pub fn shuffled(x: u64) -> u64
    ensures { result ≡ shuffling x }
{
    let y = x ^ (x << 13);
    let z = y ^ (y >> 7);
    z ^ (z << 17)
}
