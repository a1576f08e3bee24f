#![tactic(auto)]

ghost use Rattle.std.specs.Prelude.{◌≡◌};
ghost use Rattle.samples.specs.Words.{signed, word_of, unsigned, swapped, eight_from};

// The lowest sample: it has an opposite, and -32768 has none.
const LOWEST: i16 = -32767;

// The signed number that 16 bits stand for.
pub fn signed(n: u16) -> i16
    ensures { result ≡ signed n }
{
    n.cast_signed()
}

// The sample that two bytes are, the most significant first. It is at least the lowest: the compiler knows that as one
// instruction for many samples, and needs no test for each.
pub fn word(upper: u8, lower: u8) -> i16
    ensures { result ≡ word_of upper lower }
{
    signed(u16::from_be_bytes([upper, lower])).max(LOWEST)
}

// The 16 bits of a sample.
pub fn bits(sample: i16) -> u16
    ensures { result ≡ unsigned sample }
{
    sample.cast_unsigned()
}

// The bytes of a word in the other order.
pub fn swapped(word: u64) -> u64
    ensures { result ≡ swapped word }
{
    word.swap_bytes()
}

// Eight bytes from `at` as a number, the least significant first, if all of them are there: so the compiler loads them
// as they stand.
pub fn eight_from(s: &[u8], at: usize) -> u64
    ensures { result ≡ eight_from s.now at }
{
    match octets::slice(s, at, 8).as_array() {
        Some(eight) => u64::from_le_bytes(*eight),
        None => 0,
    }
}
