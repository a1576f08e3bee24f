#![tactic(auto)]

// Enocoro for callers in other languages, who keep its record as bytes. A refused call writes nothing of all that it was
// lent.
ghost use Rattle.std.specs.Prelude.{◌≡◌, length};
ghost use Rattle.octets.specs.Buffers.{put};
ghost use Rattle.refusals.specs.Answers.{number_in};
ghost use Rattle.refusals.specs.Outcome.{outcome};
ghost use Rattle.record_bytes.specs.Ciphers.{ciphered};
ghost use Rattle.enocoro_bytes.specs.Calls.{enocoro_make, enocoro_encipher};
ghost use Rattle.enocoro_bytes.specs.Record.{enocoro_size, enocoro_bytes, enocoro_in};

use enocoro::Registers;
use refusals::Refusal;

pub const CIPHER_BYTES: usize = 34;

// The cipher that the bytes are, all of them: of too few no cipher is made.
fn cipher_in(bytes: &[u8]) -> Registers
    requires { length bytes.now ≡ enocoro_size }
    ensures { result ≡ enocoro_in bytes.now }
{
    Registers {
        a0: bytes[0],
        a1: bytes[1],
        b0: octets::number_at(bytes, 2, 8),
        b1: octets::number_at(bytes, 10, 8),
        b2: octets::number_at(bytes, 18, 8),
        b3: octets::number_at(bytes, 26, 8),
    }
}

// Writes a cipher's bytes to the front of a buffer, if they have room there.
fn write_cipher(d: &mut [u8], cipher: Registers)
    ensures { d.new ≡ put d.old 0 (enocoro_bytes cipher) }
{
    if d.len() < CIPHER_BYTES {
        return;
    }
    d[0] = cipher.a0;
    d[1] = cipher.a1;
    octet_writer::write_word(d, 2, cipher.b0);
    octet_writer::write_word(d, 10, cipher.b1);
    octet_writer::write_word(d, 18, cipher.b2);
    octet_writer::write_word(d, 26, cipher.b3);
}

pub fn make(cipher: &mut [u8], key: &[u8], value: &[u8]) -> Result<(), Refusal>
    ensures { outcome (number_in result) cipher.new
        ≡ enocoro_make cipher.old key.now value.now }
{
    let registers = Registers::new(key, value)?;
    if cipher.len() < CIPHER_BYTES {
        return Err(Refusal::NoRoom);
    }
    write_cipher(cipher, registers);
    Ok(())
}

pub fn encipher(cipher: &mut [u8], input: &[u8], output: &mut [u8]) -> Result<(), Refusal>
    ensures { ciphered cipher.new output.new (number_in result)
        ≡ enocoro_encipher cipher.old input.now output.old }
{
    if cipher.len() != CIPHER_BYTES {
        return Err(Refusal::NotACipher);
    }
    let next = ciphers::encipher(cipher_in(cipher), input, output)?;
    write_cipher(cipher, next);
    Ok(())
}
