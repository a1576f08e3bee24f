#![tactic(auto)]

// TRIAD for callers in other languages, who keep its record as bytes. A refused call writes nothing of all that it was
// lent.
ghost use Rattle.std.specs.Prelude.{◌≡◌};
ghost use Rattle.refusals.specs.Answers.{number_in};
ghost use Rattle.refusals.specs.Outcome.{outcome};
ghost use Rattle.record_bytes.specs.Ciphers.{ciphered};
ghost use Rattle.triad_bytes.specs.Calls.{triad_make, triad_encipher, triad_tag};

use refusals::Refusal;
use triad::Registers;

pub const CIPHER_BYTES: usize = 48;

const TAG_BYTES: usize = 8;

pub fn make(cipher: &mut [u8], key: &[u8], value: &[u8]) -> Result<(), Refusal>
    ensures { outcome (number_in result) cipher.new ≡ triad_make cipher.old key.now value.now }
{
    let made = Registers::new(key, value)?;
    if cipher.len() < CIPHER_BYTES {
        return Err(Refusal::NoRoom);
    }
    record_bytes::write_six_words(cipher, made.words);
    Ok(())
}

pub fn encipher(cipher: &mut [u8], input: &[u8], output: &mut [u8]) -> Result<(), Refusal>
    ensures { ciphered cipher.new output.new (number_in result)
        ≡ triad_encipher cipher.old input.now output.old }
{
    if cipher.len() != CIPHER_BYTES {
        return Err(Refusal::NotACipher);
    }
    let registers = Registers {
        words: record_bytes::six_words_in(cipher),
    };
    let next = ciphers::encipher(registers, input, output)?;
    record_bytes::write_six_words(cipher, next.words);
    Ok(())
}

// The tag of associated data and of a message, which is lent plain: its eight bytes go to the buffer's front.
pub fn tag(
    key: &[u8],
    value: &[u8],
    associated: &[u8],
    message: &[u8],
    buffer: &mut [u8],
) -> Result<(), Refusal>
    ensures { outcome (number_in result) buffer.new ≡ triad_tag key.now value.now
        associated.now message.now buffer.old }
{
    let made = Registers::new_tag(key, value)?;
    if buffer.len() < TAG_BYTES {
        return Err(Refusal::NoRoom);
    }
    let data = triad_tags::with_data(made, associated, &[]);
    let all = triad_runs::absorb(data, message);
    octet_writer::write_number(buffer, 0, TAG_BYTES, all.tag());
    Ok(())
}
