#![tactic(auto)]

// Samples as floats of 32 bits, by frames of a left and a right one.
ghost use Rattle.std.specs.Prelude.{◌≡◌};
ghost use Rattle.octets.specs.Buffers.{put};
ghost use Rattle.stereo.specs.Levels.{level_of};
ghost use Rattle.stereo.specs.Frames.{frame_of, floats_of};

#[derive(Clone, Copy)]
pub struct Stereo {
    pub left: f32,
    pub right: f32,
}

// A sample divided by 32,768. Both are powers of two times a number of at most 24 digits, so nothing is rounded.
fn level(sample: i16) -> f32
    ensures { result ≡ level_of sample }
{
    (sample as f32) / 32768.0
}

pub fn frame_of(first: i16, second: i16) -> Stereo
    ensures { result ≡ frame_of first second }
{
    Stereo {
        left: level(first),
        right: level(second),
    }
}

// Writes all frames of the samples, left first, to the front of the output, if they have room there.
pub fn write_frames(samples: &[i16], output: &mut [f32])
    ensures { output.new ≡ put output.old 0 (floats_of samples.now) }
{
    let frames = samples.len() / 2;
    if frames <= output.len() / 2 {
        for i in 0..frames {
            let frame = frame_of(samples[2 * i], samples[2 * i + 1]);
            output[2 * i] = frame.left;
            output[2 * i + 1] = frame.right;
        }
    }
}
