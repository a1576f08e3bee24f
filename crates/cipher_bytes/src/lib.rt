#![tactic(auto)]

// The cipher for callers in other languages, who keep its record as bytes. A refused call writes nothing of all that it
// was lent.
ghost use Rattle.std.specs.Prelude.{◌≡◌};
ghost use Rattle.refusals.specs.Answers.{number_in};
ghost use Rattle.refusals.specs.Outcome.{outcome};
ghost use Rattle.record_bytes.specs.Ciphers.{ciphered};
ghost use Rattle.cipher_bytes.specs.Calls.{cipher_make, cipher_encipher};

use refusals::Refusal;
use trivium::Registers;

pub const CIPHER_BYTES: usize = 48;

pub fn make(cipher: &mut [u8], key: &[u8], value: &[u8]) -> Result<(), Refusal>
    ensures { outcome (number_in result) cipher.new
        ≡ cipher_make cipher.old key.now value.now }
{
    let registers = trivium_seek::make(key, value)?;
    if cipher.len() < CIPHER_BYTES {
        return Err(Refusal::NoRoom);
    }
    record_bytes::write_six_words(cipher, registers.words);
    Ok(())
}

pub fn encipher(cipher: &mut [u8], input: &[u8], output: &mut [u8]) -> Result<(), Refusal>
    ensures { ciphered cipher.new output.new (number_in result)
        ≡ cipher_encipher cipher.old input.now output.old }
{
    if cipher.len() != CIPHER_BYTES {
        return Err(Refusal::NotACipher);
    }
    let registers = Registers {
        words: record_bytes::six_words_in(cipher),
    };
    let next = registers.encipher(input, output)?;
    record_bytes::write_six_words(cipher, next.words);
    Ok(())
}
