#![tactic(auto)]

// Where the bodies of packs begin: their cipher, under the key of its ring that a pack names, and with its initial
// value.
ghost use Rattle.std.specs.Prelude.{◌≡◌};
ghost use Rattle.enocoro.specs.Keystream.{enocoro};
ghost use Rattle.bodies.specs.Bodies.{begun, made_by, beginning, beginning_from};

use chunks::Cipher;
use pack::{Kind, Rings};
use refusals::Refusal;

// Of a key that is lent as a slice it is known that it is of bytes, which Enocoro wants.
fn enocoro_made(key: &[u8], value: &[u8]) -> Result<Cipher, Refusal>
    ensures { begun result ≡ made_by enocoro key.now value.now }
{
    Ok(Cipher::Enocoro(enocoro::Registers::new(key, value)?))
}

// The cipher of a pack at the start of its body, by the key of its ring that it names and its initial value.
pub fn begin(kind: Kind, rings: Rings, number: u8, value: &[u8]) -> Result<Cipher, Refusal>
    ensures { begun result ≡ beginning kind rings number value.now }
{
    if pack::LAST_KEY < number {
        return Err(Refusal::BadKeyNumber);
    }
    let row = number as usize;
    Ok(match kind {
        Kind::Trivium => Cipher::Trivium(trivium_seek::make(&rings.of_trivium[row], value)?),
        Kind::Enocoro => enocoro_made(&rings.of_enocoro[row], value)?,
        Kind::Triad => Cipher::Triad(triad::Registers::new(&rings.of_triad[row], value)?),
    })
}

// The same by the key section of a file, which begins at `at`.
pub fn begin_from(file: &[u8], rings: Rings, at: usize) -> Result<Cipher, Refusal>
    ensures { begun result ≡ beginning_from rings file.now at }
{
    let [count, number] = octets::slice(file, at, 2) else {
        return Err(Refusal::BadValue);
    };
    let kind = Kind::picked(*count);
    let value = octets::slice(file, at + 2, kind.value_bytes());
    begin(kind, rings, *number, value)
}
