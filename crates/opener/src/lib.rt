#![tactic(auto)]

// Opening a pack: its samples, once nothing is wrong with it and there is room.
ghost use Rattle.std.specs.Prelude.{◌≡◌, ◌*◌, length, Ok};
ghost use Rattle.octets.specs.Stream.{enciphered};
ghost use Rattle.refusals.specs.Outcome.{outcome};
ghost use Rattle.samples.specs.Words.{words_of};
ghost use Rattle.chunks.specs.Ahead.{ahead};
ghost use Rattle.pack.specs.Answers.{opening_of};
ghost use Rattle.pack.specs.Calls.{inspecting_file, opening_file};
ghost use Rattle.pack.specs.Ciphers.{cipher_in, ring_in};
ghost use Rattle.pack.specs.Places.{parts_of};

use chunks::Cipher;
use pack::{Opened, Rings};
use refusals::{Flaw, Refusal};

// The body of a file without a flaw, and the cipher that it is under.
fn body(file: &[u8], rings: Rings, opened: Opened) -> (Cipher, &[u8])
    requires { opening_of (Ok opened) ≡ inspecting_file rings file.now }
    ensures { (length result.1.now ≡ 2 * opened.samples)
        × (words_of (enciphered (ahead result.0) result.1.now)
        ≡ (parts_of (cipher_in file.now) (ring_in rings file.now) file.now).samples) }
{
    let cipher = bodies::begin_from(file, rings, opened.value_at - 2).unwrap();
    let end = opened.loops_at - 1;
    (cipher, &file[end - 2 * opened.samples..end])
}

// Opens a pack: writes its samples to the front of the output, and answers what the file holds and where. Of the rings
// the file's key count picks one.
pub fn open(file: &[u8], rings: Rings, output: &mut [i16]) -> Result<Opened, Flaw>
    ensures { outcome (opening_of result) output.new ≡ opening_file rings file.now output.old }
{
    let opened = inspector::inspect(file, rings)?;
    if output.len() < opened.samples {
        return Err(Refusal::NoRoom.into());
    }
    let (cipher, body) = body(file, rings, opened);
    chunks::read_samples(cipher, body, output);
    Ok(opened)
}
