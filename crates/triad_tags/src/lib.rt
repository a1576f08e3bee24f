#![tactic(auto)]

// The tag over a whole pack under TRIAD.
ghost use Rattle.std.specs.Prelude.{◌++◌, reverse, ◌≡◌};
ghost use Rattle.octets.specs.Digits.{digits};
ghost use Rattle.octets.specs.Stream.{enciphered};
ghost use Rattle.ciphers.specs.Calls.{value_faults};
ghost use Rattle.refusals.specs.Rules.{settled};
ghost use Rattle.triad.specs.Calls.{absorbing};
ghost use Rattle.triad.specs.Tag.{padded, triad};

use triad::Registers;

// How many bytes the associated data are: seven bytes, the low one first.
fn length_bytes(n: u64) -> [u8; 7]
    ensures { result ≡ reverse (digits 256 7 n) }
{
    let [a, b, c, d, e, f, g, _] = n.to_le_bytes();
    [a, b, c, d, e, f, g]
}

// The associated data taken in, which are the front and the loops, and their length.
pub fn with_data(start: Registers, front: &[u8], loops: &[u8]) -> Registers
    ensures { result ≡ absorbing start (padded (front.now ++ loops.now)) }
{
    let size = length_bytes((front.len() + loops.len()) as u64);
    let one = triad_runs::absorb(start, front);
    let two = triad_runs::absorb(one, loops);
    triad_runs::absorb(two, &size)
}

// The tag that is due to a pack under a key and an initial value, if the value has its length: over all that stands
// before the body and behind it, as associated data, and over what the body deciphers to.
pub fn tag_due(key: &[u8; 16], value: &[u8], front: &[u8], loops: &[u8], body: &[u8]) -> u64
    ensures { result ≡ settled (value_faults triad value.now)
        (triad.tag key.now value.now (front.now ++ loops.now)
        (enciphered (triad.stream key.now value.now) body.now))
        (λ number. 0) }
{
    let Ok(start) = Registers::new_tag(key, value) else {
        return 0;
    };
    let Ok(cipher) = Registers::new(key, value) else {
        return 0;
    };
    let padded = with_data(start, front, loops);
    triad_runs::absorb_under(padded, cipher, body).tag()
}
