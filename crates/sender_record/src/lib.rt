#![tactic(auto)]

// A sender as bytes: the front of a link end's record, then its phase and how many blocks are known to be held.
ghost use Rattle.std.specs.Prelude.{◌≡◌, [], ◌∷◌};
ghost use Rattle.octets.specs.Buffers.{put};
ghost use Rattle.sender_record.specs.Record.{phase_numbers, phase_if, sender_bytes, no_sender, sender_in};

use record_bytes::Front;
use sender::{Phase, Reason, Sender};

pub const SENDER_BYTES: usize = 27;

// A length that no record in rule has.
const NO_LENGTH: u32 = 32769;

// A phase's number, each reason has one of its own, and the count that it carries.
pub fn phase_numbers(phase: Phase) -> (u8, u16)
    ensures { (result.0 ∷ result.1 ∷ []) ≡ phase_numbers phase }
{
    match phase {
        Phase::Idle => (0, 0),
        Phase::Opening => (1, 0),
        Phase::Sending(known) => (2, known),
        Phase::Done => (3, 0),
        Phase::Refused(Reason::TooLong) => (4, 0),
    }
}

// The phase with these numbers, if they are a phase's: there is a count only while sending.
#[tactic(auto, unfolding(crate::specs::Record::phase_in))]
fn phase_in(number: u64, known: u16) -> Option<Phase>
    ensures { result ≡ phase_if number known }
{
    match (number, known) {
        (0, 0) => Some(Phase::Idle),
        (1, 0) => Some(Phase::Opening),
        (2, known) => Some(Phase::Sending(known)),
        (3, 0) => Some(Phase::Done),
        (4, 0) => Some(Phase::Refused(Reason::TooLong)),
        _ => None,
    }
}

// What bytes that are no sender stand for: one that is out of rule.
fn no_sender() -> Sender
    ensures { result ≡ no_sender }
{
    Sender {
        key: [0; 10],
        pair: [0; 6],
        session: 0,
        length: NO_LENGTH,
        phase: Phase::Idle,
    }
}

// The sender that the bytes are, or one that is out of rule. How many they are is asked before they are read, for the
// compiler to see that they are there.
pub fn sender_in(bytes: &[u8]) -> Sender
    ensures { result ≡ sender_in bytes.now }
{
    if bytes.len() != SENDER_BYTES {
        return no_sender();
    }
    let number = octets::number_at(bytes, 24, 1);
    let known = octets::two_at(bytes, 25);
    let Some(phase) = phase_in(number, known) else {
        return no_sender();
    };
    let front = record_bytes::front_in(bytes);
    let Front { key, pair, .. } = front;
    Sender {
        key,
        pair,
        session: front.session,
        length: front.length,
        phase,
    }
}

// Writes a sender's bytes to the front of a buffer, if they have room there.
pub fn write_sender(d: &mut [u8], sender: Sender)
    ensures { d.new ≡ put d.old 0 (sender_bytes sender) }
{
    if d.len() < SENDER_BYTES {
        return;
    }
    let Sender { key, pair, .. } = sender;
    let front = Front {
        key,
        pair,
        session: sender.session,
        length: sender.length,
    };
    let (number, known) = phase_numbers(sender.phase);
    record_bytes::write_front(d, front);
    octet_writer::write_number(d, 24, 1, u64::from(number));
    octet_writer::write_number(d, 25, 2, u64::from(known));
}
