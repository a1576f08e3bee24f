#![tactic(auto)]

// Runs of samples, read from bytes and written as bytes where they have room.
ghost use Rattle.std.specs.Prelude.{◌≡◌};
ghost use Rattle.octets.specs.Buffers.{put};
ghost use Rattle.samples.specs.Words.{words_of, bytes_of_all};

// Reads all whole words of the bytes to the front of the output, if they have room there. The compiler does many at a
// time, and raises the lowest with them.
pub fn read_words(bytes: &[u8], output: &mut [i16])
    ensures { output.new ≡ put output.old 0 (words_of bytes.now) }
{
    let words = bytes.len() / 2;
    if words <= output.len() {
        for i in 0..words {
            let taken = samples::signed(u16::from_le_bytes([bytes[2 * i], bytes[2 * i + 1]]));
            let [lower, upper] = samples::bits(taken).to_le_bytes();
            output[i] = samples::word(lower, upper);
        }
    }
}

// Writes the samples' bytes to the front of the output, if they have room there.
pub fn write_words(sound: &[i16], output: &mut [u8])
    ensures { output.new ≡ put output.old 0 (bytes_of_all sound.now) }
{
    if sound.len() <= output.len() / 2 {
        for (i, sample) in sound.iter().enumerate() {
            let [upper, lower] = samples::bits(*sample).to_be_bytes();
            output[2 * i] = upper;
            output[2 * i + 1] = lower;
        }
    }
}
