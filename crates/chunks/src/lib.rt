#![tactic(auto)]

// Bodies of samples under a cipher's keystream, whichever cipher it is: enciphered bytes, read as samples chunk by
// chunk, and samples, written as enciphered bytes.
ghost use Rattle.std.specs.Prelude.{◌≡◌, ◌≤◌, length};
ghost use Rattle.octets.specs.Buffers.{put};
ghost use Rattle.octets.specs.Stream.{from, enciphered};
ghost use Rattle.refusals.specs.Outcome.{outcome};
ghost use Rattle.samples.specs.Words.{words_of, bytes_of_all};
ghost use Rattle.chunks.specs.Ahead.{ahead, reading_on};

use ciphers::StreamCipher;

// A cipher at some place of its keystream.
#[derive(Clone, Copy)]
pub enum Cipher {
    Trivium(trivium::Registers),
    Enocoro(enocoro::Registers),
    Triad(triad::Registers),
}

// How many bytes are deciphered at a time. The cipher is chosen once for as many.
pub const CHUNK: usize = 1024;

// Bytes under the keystream where they stand, and the cipher behind them.
fn cover(cipher: Cipher, bytes: &mut [u8]) -> Cipher
    ensures { (ahead result ≡ from (length bytes.old) (ahead cipher))
        × (bytes.new ≡ enciphered (ahead cipher) bytes.old) }
{
    match cipher {
        Cipher::Trivium(registers) => Cipher::Trivium(registers.cover(bytes)),
        Cipher::Enocoro(registers) => Cipher::Enocoro(registers.cover(bytes)),
        Cipher::Triad(registers) => Cipher::Triad(registers.cover(bytes)),
    }
}

// Bytes of a body, deciphered and read as samples to the front of the output, if they have room there; and the cipher
// behind them.
fn read_chunk(cipher: Cipher, bytes: &[u8], output: &mut [i16]) -> Cipher
    requires { length bytes.now ≤ 1024 }
    ensures { (ahead result ≡ from (length bytes.now) (ahead cipher))
        × (output.new ≡ put output.old 0 (words_of (enciphered (ahead cipher) bytes.now))) }
{
    let mut chunk = [0; CHUNK];
    let plain = &mut chunk[..bytes.len()];
    plain.copy_from_slice(bytes);
    let next = cover(cipher, plain);
    sample_runs::read_words(plain, output);
    next
}

// A body deciphered chunk by chunk to the front of the output, if its samples have room there, and the cipher behind it.
pub fn read_samples(start: Cipher, body: &[u8], output: &mut [i16]) -> Cipher
    ensures { outcome (ahead result) output.new
        ≡ reading_on (ahead start) body.now output.old }
{
    if output.len() < body.len() / 2 {
        return start;
    }
    let mut cipher = start;
    let mut at = 0;
    for bytes in body.chunks(CHUNK) {
        cipher = read_chunk(cipher, bytes, &mut output[at / 2..]);
        at += bytes.len();
    }
    cipher
}

// All samples, as bytes and enciphered, from `at`, if they have room there. As bytes they are written all at once,
// which the compiler does eight at a time, and then enciphered.
pub fn write_samples(start: Cipher, samples: &[i16], output: &mut [u8], at: usize)
    ensures { output.new
        ≡ put output.old at (enciphered (ahead start) (bytes_of_all samples.now)) }
{
    let n = 2 * samples.len();
    if at <= output.len() && n <= output.len() - at {
        let place = &mut output[at..at + n];
        sample_runs::write_words(samples, place);
        cover(start, place);
    }
}
