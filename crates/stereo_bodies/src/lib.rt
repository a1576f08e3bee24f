#![tactic(auto)]

// Bodies of samples under a cipher's keystream, read as frames of floats: chunk by chunk, so that no buffer of samples
// is asked of a caller.
ghost use Rattle.std.specs.Prelude.{◌≡◌, ◌/◌, ◌%◌, ◌≤◌, length};
ghost use Rattle.octets.specs.Buffers.{put};
ghost use Rattle.octets.specs.Stream.{from, enciphered};
ghost use Rattle.samples.specs.Words.{by_twos};
ghost use Rattle.chunks.specs.Ahead.{ahead};
ghost use Rattle.stereo_bodies.specs.Reading.{level_from, reading_frames};

use chunks::{CHUNK, Cipher};

// Bytes of a body that are whole frames, deciphered and written as floats to the front of the output, if they have room
// there; and the cipher behind them.
fn read_chunk(cipher: Cipher, bytes: &[u8], output: &mut [f32]) -> Cipher
    requires { (length bytes.now ≤ 1024) × (length bytes.now / 2 % 2 ≡ 0) }
    ensures { (ahead result ≡ from (length bytes.now) (ahead cipher))
        × (output.new ≡ put output.old 0 (by_twos level_from (enciphered (ahead cipher) bytes.now))) }
{
    let mut chunk = [0; CHUNK / 2];
    let samples = &mut chunk[..bytes.len() / 2];
    let next = chunks::read_samples(cipher, bytes, samples);
    stereo::write_frames(samples, output);
    next
}

// A body of whole frames, to the front of the output, if they have room there.
pub fn read_frames(start: Cipher, body: &[u8], output: &mut [f32])
    ensures { output.new
        ≡ reading_frames (ahead start) body.now output.old }
{
    let samples = body.len() / 2;
    if samples % 2 != 0 || output.len() < samples {
        return;
    }
    let mut cipher = start;
    let mut at = 0;
    for bytes in body.chunks(CHUNK) {
        cipher = read_chunk(cipher, bytes, &mut output[at / 2..]);
        at += bytes.len();
    }
}
