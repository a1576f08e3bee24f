#![tactic(auto)]

// What the calls of every cipher have in common: see specs/Calls.antt and proofs/Enciphering.antt.
ghost use Rattle.std.specs.Prelude.{◌≡◌, ℕ};
ghost use Rattle.octets.specs.Stream.{Keystream};
ghost use Rattle.refusals.specs.Answers.{answer, answer_or};
ghost use Rattle.refusals.specs.Outcome.{outcome};
ghost use Rattle.ciphers.specs.Calls.{covers_by, enciphers_by};

use refusals::Refusal;

// A record that stands at some place of its keystream.
pub trait StreamCipher: Copy {
    // the keystream from there on, and the record so many bytes further
    ghost ahead: { Self → Keystream };

    ghost moved: { Self → ℕ → Self };

    // Bytes under the keystream where they stand, and the record behind them.
    fn cover(self, bytes: &mut [u8]) -> Self
        ensures { outcome result bytes.new ≡ covers_by ahead moved self bytes.old };
}

// The input under the keystream, to the front of the output: it is copied, and enciphered there. A refused call leaves
// the record as given.
pub fn encipher<C: StreamCipher>(cipher: C, input: &[u8], output: &mut [u8]) -> Result<C, Refusal>
    ensures { outcome (answer_or cipher result) output.new
        ≡ enciphers_by answer C.ahead C.moved cipher input.now output.old }
{
    let n = input.len();
    if output.len() < n {
        return Err(Refusal::NoRoom);
    }
    octet_writer::copy(output, 0, input);
    Ok(cipher.cover(&mut output[0..n]))
}
