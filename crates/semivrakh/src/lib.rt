#![tactic(auto)]

// The C interface: what include/semivrakh.h tells a C program about. Each function hands on what it is lent; records
// travel as bytes that the caller keeps, and a refused call writes nothing of all that it was lent.
ghost use Rattle.std.specs.Prelude.{◌≡◌};
ghost use Rattle.refusals.specs.Outcome.{outcome};
ghost use Rattle.pack.specs.Layout.{parts};
ghost use Rattle.record_bytes.specs.Ciphers.{ciphered};
ghost use Rattle.record_bytes.specs.Written.{wrote};
ghost use Rattle.cipher_bytes.specs.Calls.{cipher_make, cipher_encipher};
ghost use Rattle.enocoro_bytes.specs.Calls.{enocoro_make, enocoro_encipher};
ghost use Rattle.triad_bytes.specs.Calls.{triad_make, triad_encipher, triad_tag};
ghost use Rattle.survey_bytes.specs.Calls.{pack_survey, pack_lacks, pack_loops};
ghost use Rattle.pack_bytes.specs.Calls.{pack_opened, pack_open, pack_seal};
ghost use Rattle.stereo_bytes.specs.Calls.{pack_open_stereo};
ghost use Rattle.sender_bytes.specs.Calls.{sender_make, sender_begin, sender_send, sender_hear};
ghost use Rattle.receiver_bytes.specs.Calls.{receiver_make, reception, receiver_hear};
ghost use Rattle.link_status.specs.Calls.{sender_status, receiver_status};
ghost use Rattle.semivrakh.specs.Version.{version};

use refusals::number;

// Ten thousand times the version's first number, a hundred times its second, and its third.
const VERSION: u32 = 800;

#[unsafe(no_mangle)]
pub extern "C" fn semivrakh_version() -> u32
    ensures { result ≡ version }
{
    VERSION
}

#[unsafe(no_mangle)]
pub extern "C" fn semivrakh_cipher_make(cipher: &mut [u8], key: &[u8], value: &[u8]) -> u8
    ensures { outcome result cipher.new
        ≡ cipher_make cipher.old key.now value.now }
{
    number(cipher_bytes::make(cipher, key, value))
}

#[unsafe(no_mangle)]
pub extern "C" fn semivrakh_cipher_encipher(
    cipher: &mut [u8],
    input: &[u8],
    output: &mut [u8],
) -> u8
    ensures { ciphered cipher.new output.new result
        ≡ cipher_encipher cipher.old input.now output.old }
{
    number(cipher_bytes::encipher(cipher, input, output))
}

#[unsafe(no_mangle)]
pub extern "C" fn semivrakh_enocoro_make(cipher: &mut [u8], key: &[u8], value: &[u8]) -> u8
    ensures { outcome result cipher.new
        ≡ enocoro_make cipher.old key.now value.now }
{
    number(enocoro_bytes::make(cipher, key, value))
}

#[unsafe(no_mangle)]
pub extern "C" fn semivrakh_enocoro_encipher(
    cipher: &mut [u8],
    input: &[u8],
    output: &mut [u8],
) -> u8
    ensures { ciphered cipher.new output.new result
        ≡ enocoro_encipher cipher.old input.now output.old }
{
    number(enocoro_bytes::encipher(cipher, input, output))
}

#[unsafe(no_mangle)]
pub extern "C" fn semivrakh_triad_make(cipher: &mut [u8], key: &[u8], value: &[u8]) -> u8
    ensures { outcome result cipher.new
        ≡ triad_make cipher.old key.now value.now }
{
    number(triad_bytes::make(cipher, key, value))
}

#[unsafe(no_mangle)]
pub extern "C" fn semivrakh_triad_encipher(cipher: &mut [u8], input: &[u8], output: &mut [u8]) -> u8
    ensures { ciphered cipher.new output.new result
        ≡ triad_encipher cipher.old input.now output.old }
{
    number(triad_bytes::encipher(cipher, input, output))
}

#[unsafe(no_mangle)]
pub extern "C" fn semivrakh_triad_tag(
    key: &[u8],
    value: &[u8],
    associated: &[u8],
    message: &[u8],
    tag: &mut [u8],
) -> u8
    ensures { outcome result tag.new ≡ triad_tag key.now value.now
        associated.now message.now tag.old }
{
    number(triad_bytes::tag(key, value, associated, message, tag))
}

#[unsafe(no_mangle)]
pub extern "C" fn semivrakh_pack_open(
    file: &[u8],
    keys: &[u8],
    samples: &mut [i16],
    answer: &mut [usize],
) -> u8
    ensures { pack_opened samples.new answer.new result
        ≡ pack_open file.now keys.now samples.old answer.old }
{
    number(pack_bytes::open(file, keys, samples, answer))
}

#[unsafe(no_mangle)]
pub extern "C" fn semivrakh_pack_open_stereo(
    file: &[u8],
    keys: &[u8],
    frames: &mut [f32],
    answer: &mut [usize],
) -> u8
    ensures { pack_opened frames.new answer.new result
        ≡ pack_open_stereo file.now keys.now frames.old answer.old }
{
    number(stereo_bytes::open(file, keys, frames, answer))
}

#[unsafe(no_mangle)]
pub extern "C" fn semivrakh_pack_survey(file: &[u8], answer: &mut [usize]) -> u8
    ensures { outcome result answer.new ≡ pack_survey file.now answer.old }
{
    number(survey_bytes::survey(file, answer))
}

#[unsafe(no_mangle)]
pub extern "C" fn semivrakh_pack_lacks(file: &[u8]) -> usize
    ensures { result ≡ pack_lacks file.now }
{
    survey_bytes::lacks(file)
}

#[unsafe(no_mangle)]
pub extern "C" fn semivrakh_pack_loops(file: &[u8], loops: &mut [u32], written: &mut usize) -> u8
    ensures { wrote loops.new written.new result
        ≡ pack_loops file.now loops.old written.old }
{
    number(survey_bytes::loops(file, loops, written))
}

#[unsafe(no_mangle)]
pub extern "C" fn semivrakh_pack_seal(
    name: &[u8],
    keys: &[u8],
    cipher: u8,
    key: u8,
    value: &[u8],
    samples: &[i16],
    loops: &[u32],
    output: &mut [u8],
    written: &mut usize,
) -> u8
    ensures { wrote output.new written.new result
        ≡ pack_seal cipher keys.now
        (parts name.now key value.now samples.now loops.now)
        output.old written.old }
{
    number(pack_bytes::seal(
        name, keys, cipher, key, value, samples, loops, output, written,
    ))
}

#[unsafe(no_mangle)]
pub extern "C" fn semivrakh_sender_make(sender: &mut [u8], key: &[u8], pair: &[u8]) -> u8
    ensures { outcome result sender.new
        ≡ sender_make sender.old key.now pair.now }
{
    number(sender_bytes::make(sender, key, pair))
}

#[unsafe(no_mangle)]
pub extern "C" fn semivrakh_sender_begin(sender: &mut [u8], sound: &[u8]) -> u8
    ensures { outcome result sender.new ≡ sender_begin sender.old sound.now }
{
    number(sender_bytes::begin(sender, sound))
}

#[unsafe(no_mangle)]
pub extern "C" fn semivrakh_sender_send(
    sender: &[u8],
    sound: &[u8],
    frame: &mut [u8],
    written: &mut usize,
) -> u8
    ensures { wrote frame.new written.new result
        ≡ sender_send sender.now sound.now frame.old written.old }
{
    number(sender_bytes::send(sender, sound, frame, written))
}

#[unsafe(no_mangle)]
pub extern "C" fn semivrakh_sender_hear(sender: &mut [u8], frame: &[u8]) -> u8
    ensures { outcome result sender.new ≡ sender_hear sender.old frame.now }
{
    number(sender_bytes::hear(sender, frame))
}

#[unsafe(no_mangle)]
pub extern "C" fn semivrakh_sender_status(sender: &[u8], answer: &mut [usize]) -> u8
    ensures { outcome result answer.new ≡ sender_status sender.now answer.old }
{
    number(link_status::sender_status(sender, answer))
}

#[unsafe(no_mangle)]
pub extern "C" fn semivrakh_receiver_make(receiver: &mut [u8], key: &[u8], pair: &[u8]) -> u8
    ensures { outcome result receiver.new
        ≡ receiver_make receiver.old key.now pair.now }
{
    number(receiver_bytes::make(receiver, key, pair))
}

#[unsafe(no_mangle)]
pub extern "C" fn semivrakh_receiver_hear(
    receiver: &mut [u8],
    frame: &[u8],
    sound: &mut [u8],
    answer: &mut [u8],
    written: &mut usize,
) -> u8
    ensures { reception receiver.new sound.new answer.new written.new result
        ≡ receiver_hear receiver.old frame.now sound.old answer.old
        written.old }
{
    number(receiver_bytes::hear(receiver, frame, sound, answer, written))
}

#[unsafe(no_mangle)]
pub extern "C" fn semivrakh_receiver_status(receiver: &[u8], answer: &mut [usize]) -> u8
    ensures { outcome result answer.new ≡ receiver_status receiver.now answer.old }
{
    number(link_status::receiver_status(receiver, answer))
}
