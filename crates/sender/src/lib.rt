#![tactic(auto)]

ghost use Rattle.std.specs.Prelude.{◌≡◌};
ghost use Rattle.refusals.specs.Outcome.{outcome};
ghost use Rattle.trivium.specs.Keystream.{trivium};
ghost use Rattle.names.specs.Naming.{no_key, no_pair};
ghost use Rattle.sender.specs.Answers.{answer_of, sent_of, known_in, answered, due_count, news};
ghost use Rattle.sender.specs.Rules.{sender_in_rule};
ghost use Rattle.sender.specs.Sender.{fresh_sender, making_sender, beginning, sending, hearing};

use frames::{FrameKind, Told};
use names::Names;
use refusals::Refusal;

// Why a sender's transfer was refused by the other end.
#[derive(Clone, Copy)]
pub enum Reason {
    TooLong,
}

// How far a sender's transfer is. `Sending` carries the count of blocks that are known to be held.
#[derive(Clone, Copy)]
pub enum Phase {
    Idle,
    Opening,
    Sending(u16),
    Done,
    Refused(Reason),
}

#[derive(Clone, Copy)]
pub struct Sender {
    pub key: [u8; 10],
    pub pair: [u8; 6],
    pub session: u32,
    pub length: u32,
    pub phase: Phase,
}

// The count of held blocks that would be news: one more than known, and none while the transfer opens.
fn news(known: Option<u16>) -> u32
    ensures { result ≡ news known }
{
    known.map_or(0, |known| u32::from(known) + 1)
}

impl Sender {
    // A sender with a key of ten bytes and a pair name of six.
    pub fn new(key: &[u8], pair: &[u8]) -> Result<Sender, Refusal>
        ensures { answer_of (fresh_sender no_key no_pair) result ≡ making_sender key.now pair.now }
    {
        let Names { key, pair } = names::check_names(key, pair)?;
        Ok(Sender {
            key,
            pair,
            session: 0,
            length: 0,
            phase: Phase::Idle,
        })
    }

    // Whether the record is in rule.
    pub fn in_rule(self) -> bool
        ensures { result ≡ sender_in_rule self }
    {
        let begun = 1 <= self.session;
        self.length as usize <= blocks::MOST_BYTES
            && match self.phase {
                Phase::Idle => true,
                Phase::Sending(known) => {
                    begun && u32::from(known) < blocks::block_count(self.length)
                }
                Phase::Opening | Phase::Done | Phase::Refused(_) => begun,
            }
    }

    // The count that is known of a transfer under way: none yet while it opens.
    fn known(self) -> Result<Option<u16>, Refusal>
        ensures { result ≡ known_in self.phase }
    {
        match self.phase {
            Phase::Opening => Ok(None),
            Phase::Sending(known) => Ok(Some(known)),
            Phase::Idle | Phase::Done | Phase::Refused(_) => Err(Refusal::NoTransfer),
        }
    }

    // The same, where the other end answers in this session.
    fn answered(self, session: u32) -> Result<Option<u16>, Refusal>
        ensures { result ≡ answered self session }
    {
        let known = self.known()?;
        if session != self.session {
            return Err(Refusal::OtherSession);
        }
        Ok(known)
    }

    // How many bytes the next frame has: the opening, or the block behind those that are known to be held.
    fn due(self, known: Option<u16>) -> usize
        ensures { result ≡ due_count self known }
    {
        match known {
            None => 9,
            Some(known) => 8 + blocks::block_size(self.length as usize, known),
        }
    }

    // Begins a transfer of this sound, of which only the length counts here.
    pub fn begin(self, sound: &[u8]) -> Result<Sender, Refusal>
        ensures { answer_of self result ≡ beginning self sound.now }
    {
        if !self.in_rule() {
            return Err(Refusal::OutOfRule);
        }
        if blocks::MOST_BYTES < sound.len() {
            return Err(Refusal::LongSound);
        }
        let session = self.session.checked_add(1).ok_or(Refusal::NoSession)?;
        Ok(Sender {
            session,
            length: sound.len() as u32,
            phase: Phase::Opening,
            ..self
        })
    }

    // Writes the opening frame, or block number "known", of a sound lent anew, and answers its length. The record doesn't
    // change.
    pub fn send(self, sound: &[u8], frame: &mut [u8]) -> Result<usize, Refusal>
        ensures { outcome (sent_of self result) frame.new ≡ sending trivium self sound.now frame.old }
    {
        if !self.in_rule() {
            return Err(Refusal::OutOfRule);
        }
        let known = self.known()?;
        if sound.len() != self.length as usize {
            return Err(Refusal::WrongSound);
        }
        let due = self.due(known);
        if frame.len() < due {
            return Err(Refusal::NoRoom);
        }
        match known {
            None => {
                let length = u64::from(self.length);
                frames::write_short(frame, FrameKind::Opening as u64, self.session, 4, length);
            }
            Some(known) => {
                frames::write_block(&self.key, &self.pair, self.session, known, sound, frame);
            }
        }
        Ok(due)
    }

    // Hears an answer of the receiver: Holds of the new count is news, and less is old news.
    pub fn hear(self, frame: &[u8]) -> Result<Sender, Refusal>
        ensures { answer_of self result ≡ hearing self frame.now }
    {
        if !self.in_rule() {
            return Err(Refusal::OutOfRule);
        }
        match frames::read(frame).ok_or(Refusal::NotAFrame)? {
            Told::Holds(session, held) => {
                let new_count = news(self.answered(session)?);
                let count = u32::from(held);
                if new_count < count {
                    return Err(Refusal::Impossible);
                }
                if count < new_count {
                    return Ok(self);
                }
                let phase = if count < blocks::block_count(self.length) {
                    Phase::Sending(held)
                } else {
                    Phase::Done
                };
                Ok(Sender { phase, ..self })
            }
            Told::TooLong(session) => {
                if self.answered(session)?.is_some() {
                    return Err(Refusal::Impossible);
                }
                let phase = Phase::Refused(Reason::TooLong);
                Ok(Sender { phase, ..self })
            }
            Told::Opening(..) | Told::Block(..) => Err(Refusal::NotAFrame),
        }
    }
}
