#![tactic(auto)]

// The rings of keys, from the run of bytes that callers and the reading program have: Trivium's four keys, behind them
// Enocoro's, and behind these TRIAD's.
ghost use Rattle.std.specs.Prelude.{◌≡◌, ◌+◌, ◌*◌, ◌≤◌, length, replicate};
ghost use Rattle.octets.specs.Buffers.{slice, put};
ghost use Rattle.rings.specs.Ring.{ring_at, keys_bytes, rings_of, rings_in};

use pack::Rings;
use refusals::Refusal;

// All keys of the three rings.
pub const KEYS_BYTES: usize = 168;

const ENOCORO_AT: usize = 40;

const TRIAD_AT: usize = 104;

// The keys, from the run that is lent: at the front, and blank where it has no more. A run that is longer gives none.
pub fn keys_in(bytes: &[u8]) -> [u8; KEYS_BYTES]
    ensures { result ≡ put (replicate keys_bytes 0) 0 bytes.now }
{
    let mut own = [0; KEYS_BYTES];
    octet_writer::copy(&mut own, 0, bytes);
    own
}

// The key that begins at `at`.
fn key_at<const N: usize>(keys: &[u8], at: usize) -> [u8; N]
    requires { at + N ≤ length keys.now }
    ensures { result ≡ slice keys.now at N }
{
    let mut key = [0; N];
    key.copy_from_slice(&keys[at..at + N]);
    key
}

// Four keys, one after the other from `at`.
#[tactic(auto, unfolding(crate::specs::Ring::ring_at))]
fn ring_at<const N: usize>(keys: &[u8], at: usize) -> [[u8; N]; 4]
    requires { at + 4 * N ≤ length keys.now }
    ensures { result ≡ ring_at N at keys.now }
{
    [
        key_at(keys, at),
        key_at(keys, at + N),
        key_at(keys, at + 2 * N),
        key_at(keys, at + 3 * N),
    ]
}

// The rings, from all keys.
pub fn rings_of(keys: &[u8; KEYS_BYTES]) -> Rings
    ensures { result ≡ rings_of keys.now }
{
    Rings {
        of_trivium: ring_at(keys, 0),
        of_enocoro: ring_at(keys, ENOCORO_AT),
        of_triad: ring_at(keys, TRIAD_AT),
    }
}

// The same from a run that is lent, if it is of as many bytes.
pub fn rings_in(keys: &[u8]) -> Result<Rings, Refusal>
    ensures { result ≡ rings_in keys.now }
{
    if keys.len() != KEYS_BYTES {
        return Err(Refusal::BadKey);
    }
    Ok(rings_of(&keys_in(keys)))
}
