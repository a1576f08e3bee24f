#![tactic(auto)]

ghost use Rattle.std.specs.Prelude.{◌≡◌};
ghost use Rattle.octets.specs.Buffers.{put};
ghost use Rattle.octets.specs.Stream.{from};
ghost use Rattle.trivium.specs.Keystream.{keystream, trivium};
ghost use Rattle.trivium.specs.Record.{state};
ghost use Rattle.blocks.specs.Blocks.{blocks, place, size};
ghost use Rattle.blocks.specs.Covering.{initial, covered};

use trivium::Registers;

// The bytes of a block, and the most bytes of a sound.
pub const BLOCK_BYTES: usize = 64;

pub const MOST_BYTES: usize = 32768;

// How many blocks a sound of so many bytes has.
pub fn block_count(length: u32) -> u32
    ensures { result ≡ blocks length }
{
    length.div_ceil(64)
}

// How many bytes block k of a sound has that is `length` bytes long.
pub fn block_size(length: usize, k: u16) -> usize
    ensures { result ≡ size length k }
{
    let left = length.saturating_sub(BLOCK_BYTES * k as usize);
    left.min(BLOCK_BYTES)
}

// A session's cipher, made anew and moved on to block k of the sound, whose 64 bytes are eight strides.
fn cipher(key: &[u8; 10], pair: &[u8; 6], session: u32, k: u16) -> Registers
    ensures { keystream (state result)
        ≡ from (place k) (trivium.stream key.now (initial pair.now session)) }
{
    let mut value = [0; 10];
    value[..6].copy_from_slice(pair);
    value[6..].copy_from_slice(&session.to_be_bytes());
    trivium_seek::make_at(key, &value, 8 * k as u32).unwrap()
}

// Block k under its part of the session's stream, to its place in a buffer, if it has room there. There and back again
// it is the same work.
pub fn cover(
    key: &[u8; 10],
    pair: &[u8; 6],
    session: u32,
    k: u16,
    run: &[u8],
    buffer: &mut [u8],
    at: usize,
)
    ensures { buffer.new ≡ put buffer.old at
        (covered trivium key.now pair.now session k run.now) }
{
    if buffer.len() < at || buffer.len() - at < run.len() {
        return;
    }
    cipher(key, pair, session, k)
        .encipher(run, &mut buffer[at..])
        .unwrap();
}
