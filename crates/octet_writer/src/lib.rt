#![tactic(auto)]

// Runs and numbers written to a lent buffer where they have room, and otherwise nothing.
ghost use Rattle.std.specs.Prelude.{◌≡◌, ◌/◌, ◌%◌, ◌^◌};
ghost use Rattle.std.specs.Int.Bits.{bit_xor};
ghost use Rattle.octets.specs.Buffers.{put};
ghost use Rattle.octets.specs.Digits.{digits, number_at, word};
ghost use Rattle.samples.specs.Words.{swapped};

// Copies a run to the elements from `at`, if it has room there: byte by byte, which the compiler does many at a time. The
// library's copy would call `memmove`, and ask for it where this library is linked.
pub fn copy(d: &mut [u8], at: usize, run: &[u8])
    ensures { d.new ≡ put d.old at run.now }
{
    if at <= d.len() && run.len() <= d.len() - at {
        for (i, byte) in run.iter().enumerate() {
            d[at + i] = *byte;
        }
    }
}

// The byte of a number that has so many bytes below it.
fn byte_above(value: u64, below: usize) -> u8
    ensures { result ≡ value / 256 ^ below % 256 }
{
    if below < 8 {
        ((value >> (8 * below)) % 256) as u8
    } else {
        0
    }
}

// Writes the last n bytes of a number from `at`, the most significant first, if they have room there.
pub fn write_number(d: &mut [u8], at: usize, n: usize, value: u64)
    ensures { d.new ≡ put d.old at (digits 256 n value) }
{
    if at <= d.len() && n <= d.len() - at {
        for i in 0..n {
            d[at + i] = byte_above(value, n - 1 - i);
        }
    }
}

// Writes the eight bytes of a word from `at`, the least significant first, if they have room there. The compiler stores
// them as they stand.
pub fn write_low(d: &mut [u8], at: usize, word: u64)
    ensures { d.new ≡ put d.old at (digits 256 8 (swapped word)) }
{
    copy(d, at, &word.to_le_bytes());
}

// Writes a word's eight bytes from `at`, the most significant first, if they have room there: one store, where eight bytes
// of a number are eight.
pub fn write_word(d: &mut [u8], at: usize, word: u64)
    ensures { d.new ≡ put d.old at (digits 256 8 word) }
{
    copy(d, at, &word.to_be_bytes());
}

// n bytes from `at` under the last n of a word of keystream, where they stand: read and written as one number.
pub fn cover(bytes: &mut [u8], at: usize, n: usize, stream: u64)
    ensures { bytes.new
        ≡ put bytes.old at (digits 256 n (bit_xor (word (number_at bytes.old at n)) stream)) }
{
    let read = octets::number_at(bytes, at, n);
    write_number(bytes, at, n, read ^ stream);
}
