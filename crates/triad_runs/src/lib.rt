#![tactic(auto)]

// Runs of bytes on TRIAD's registers, taken in for a tag. In each loop the registers move
// word by word and clear nothing, and a part of a stride behind it takes what is left and clears what they leave.
ghost use Rattle.std.specs.Prelude.{◌≡◌};
ghost use Rattle.triad.specs.Calls.{absorbing, absorbing_under};

use triad::Registers;

// A piece of what the tag is over, taken in.
pub fn absorb(registers: Registers, bytes: &[u8]) -> Registers
    ensures { result ≡ absorbing registers bytes.now }
{
    let (words, rest) = bytes.as_chunks::<8>();
    let mut moved = registers;
    for word in words {
        moved = moved.run(u64::from_le_bytes(*word)).next;
    }
    moved
        .short_stride(triad::word_in(rest), 8 * rest.len())
        .next
}

// The same of a piece that is lent enciphered, from the place in its keystream where `cipher` stands. Each word is
// deciphered on its way, and stored nowhere.
pub fn absorb_under(registers: Registers, cipher: Registers, bytes: &[u8]) -> Registers
    ensures { result ≡ absorbing_under registers cipher bytes.now }
{
    let (words, rest) = bytes.as_chunks::<8>();
    let mut moved = registers;
    let mut stream = cipher;
    for word in words {
        let key = stream.run(0);
        moved = moved.run(u64::from_le_bytes(*word) ^ key.word).next;
        stream = key.next;
    }
    let key = stream.run(0);
    let message = triad::word_in(rest) ^ key.word;
    moved.short_stride(message, 8 * rest.len()).next
}
