#![tactic(auto)]

// The receiver for callers in other languages, who keep its record as bytes. A refused call writes nothing of all that
// it was lent.
ghost use Rattle.std.specs.Prelude.{◌≡◌};
ghost use Rattle.octets.specs.Buffers.{put};
ghost use Rattle.refusals.specs.Answers.{number_in};
ghost use Rattle.refusals.specs.Outcome.{outcome};
ghost use Rattle.receiver_bytes.specs.Calls.{receiver_make, reception, receiver_hear};
ghost use Rattle.receiver_bytes.specs.Record.{receiver_bytes, receiver_in};

use receiver::Receiver;
use record_bytes::Front;
use refusals::Refusal;

pub const RECEIVER_BYTES: usize = 26;

// A length that no record in rule has.
const NO_LENGTH: u32 = 32769;

// The receiver that the bytes are, or one that is out of rule.
#[tactic(auto, using(std::proofs::lemmas::Bool::Decides::nat_tests), unfolding(crate::specs::Record::receiver_in))]
pub fn receiver_in(bytes: &[u8]) -> Receiver
    ensures { result ≡ receiver_in bytes.now }
{
    if bytes.len() != RECEIVER_BYTES {
        return Receiver {
            key: [0; 10],
            pair: [0; 6],
            session: 0,
            length: NO_LENGTH,
            count: 0,
        };
    }
    let front = record_bytes::front_in(bytes);
    let Front { key, pair, .. } = front;
    Receiver {
        key,
        pair,
        session: front.session,
        length: front.length,
        count: octets::two_at(bytes, 24),
    }
}

// Writes a receiver's bytes to the front of a buffer, if they have room there.
fn write_receiver(d: &mut [u8], receiver: Receiver)
    ensures { d.new ≡ put d.old 0 (receiver_bytes receiver) }
{
    if d.len() < RECEIVER_BYTES {
        return;
    }
    let Receiver { key, pair, .. } = receiver;
    let front = Front {
        key,
        pair,
        session: receiver.session,
        length: receiver.length,
    };
    record_bytes::write_front(d, front);
    octet_writer::write_number(d, 24, 2, u64::from(receiver.count));
}

#[tactic(auto, using(crate::proofs::Calls::make_short))]
pub fn make(receiver: &mut [u8], key: &[u8], pair: &[u8]) -> Result<(), Refusal>
    ensures { outcome (number_in result) receiver.new
        ≡ receiver_make receiver.old key.now pair.now }
{
    let made = Receiver::new(key, pair)?;
    if receiver.len() < RECEIVER_BYTES {
        return Err(Refusal::NoRoom);
    }
    write_receiver(receiver, made);
    Ok(())
}

pub fn hear(
    receiver: &mut [u8],
    frame: &[u8],
    sound: &mut [u8],
    answer: &mut [u8],
    written: &mut usize,
) -> Result<(), Refusal>
    ensures { reception receiver.new sound.new answer.new written.new (number_in result)
        ≡ receiver_hear receiver.old frame.now sound.old answer.old written.old }
{
    let answered = receiver_in(receiver).hear(frame, sound, answer)?;
    write_receiver(receiver, answered.receiver);
    *written = answered.length;
    Ok(())
}
