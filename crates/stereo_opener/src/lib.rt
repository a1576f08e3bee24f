#![tactic(auto)]

// Opening a pack for the voice engine: its frames of floats, once nothing is wrong with it, they are whole, and there is
// room.
ghost use Rattle.std.specs.Prelude.{◌≡◌, ◌*◌, length, Ok};
ghost use Rattle.octets.specs.Stream.{enciphered};
ghost use Rattle.refusals.specs.Answers.{verdict_in};
ghost use Rattle.refusals.specs.Outcome.{outcome};
ghost use Rattle.refusals.specs.Rules.{first};
ghost use Rattle.samples.specs.Words.{words_of};
ghost use Rattle.chunks.specs.Ahead.{ahead};
ghost use Rattle.pack.specs.Answers.{opening_of};
ghost use Rattle.pack.specs.Calls.{inspecting_file};
ghost use Rattle.pack.specs.Ciphers.{cipher_in, ring_in};
ghost use Rattle.pack.specs.Places.{parts_of};
ghost use Rattle.stereo_opener.specs.Calls.{after_keyed, opening_stereo_file};

use chunks::Cipher;
use pack::{Opened, Rings};
use refusals::{Flaw, Refusal};

// The order: what one who has keys is told of a file, its tag's refusal too, then whether its samples are whole frames,
// then the room for them.
#[tactic(auto, using(crate::proofs::Order::told_first, crate::proofs::Order::told_same))]
pub fn frames_fault(keyed: Result<(), Flaw>, samples: usize, room: usize) -> Result<(), Flaw>
    ensures order { (verdict_in result).number
        ≡ first (after_keyed (verdict_in keyed).number samples room) }
    ensures lacks { (verdict_in result).lacks ≡ (verdict_in keyed).lacks }
{
    keyed?;
    if samples % 2 != 0 {
        return Err(Refusal::OddSamples.into());
    }
    if room < samples {
        return Err(Refusal::NoRoom.into());
    }
    Ok(())
}

// The body of a file without a flaw, and the cipher that it is under.
fn body(file: &[u8], rings: Rings, opened: Opened) -> (Cipher, &[u8])
    requires { opening_of (Ok opened) ≡ inspecting_file rings file.now }
    ensures { (length result.1.now ≡ 2 * opened.samples)
        × (words_of (enciphered (ahead result.0) result.1.now)
        ≡ (parts_of (cipher_in file.now) (ring_in rings file.now) file.now).samples) }
{
    let cipher = bodies::begin_from(file, rings, opened.value_at - 2).unwrap();
    let end = opened.loops_at - 1;
    (cipher, &file[end - 2 * opened.samples..end])
}

// Writes the frames to the front of the output, left first, and answers what the file holds and where.
pub fn open(file: &[u8], rings: Rings, output: &mut [f32]) -> Result<Opened, Flaw>
    ensures { outcome (opening_of result) output.new
        ≡ opening_stereo_file rings file.now output.old }
{
    let told = inspector::inspect(file, rings);
    let samples = told.map_or(0, |opened| opened.samples);
    frames_fault(told.and(Ok(())), samples, output.len())?;
    let opened = told.unwrap();
    let (cipher, body) = body(file, rings, opened);
    stereo_bodies::read_frames(cipher, body, output);
    Ok(opened)
}
