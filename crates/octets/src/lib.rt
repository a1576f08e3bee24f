#![tactic(auto)]

ghost use Rattle.std.specs.Prelude.{◌≡◌};
ghost use Rattle.octets.specs.Buffers.{slice};
ghost use Rattle.octets.specs.Digits.{number_at, word};

// The n elements from `at`, or as many of them as are there.
pub fn slice(s: &[u8], at: usize, n: usize) -> &[u8]
    ensures { result.now ≡ slice s.now at n }
{
    let rest = &s[at.min(s.len())..];
    &rest[..n.min(rest.len())]
}

// The number that n bytes from `at` make, the most significant first: as much of it as a word keeps. The compiler loads
// eight of them as they stand.
pub fn number_at(s: &[u8], at: usize, n: usize) -> u64
    ensures { result ≡ word (number_at s.now at n) }
{
    let bytes = slice(s, at, n);
    if let Some(eight) = bytes.as_array::<8>() {
        return u64::from_be_bytes(*eight);
    }
    let mut value = 0;
    for byte in bytes {
        value = (value << 8) | u64::from(*byte);
    }
    value
}

// A number of two bytes, and one of four, from `at`, or of as many as are there.
pub fn two_at(s: &[u8], at: usize) -> u16
    ensures { result ≡ number_at s.now at 2 }
{
    number_at(s, at, 2) as u16
}

pub fn four_at(s: &[u8], at: usize) -> u32
    ensures { result ≡ number_at s.now at 4 }
{
    number_at(s, at, 4) as u32
}
