#![tactic(auto, using(std::proofs::lemmas::Bool::Decides::nat_tests), unfolding(refusals::specs::Rules::first, refusals::specs::Rules::told, crate::specs::Rules::receiver_in_rule))]

ghost use Rattle.std.specs.Prelude.{◌≡◌, List, ℕ, length, drop};
ghost use Rattle.octets.specs.Buffers.{put};
ghost use Rattle.refusals.specs.Answers.{number_in};
ghost use Rattle.refusals.specs.Outcome.{outcome};
ghost use Rattle.refusals.specs.Rules.{first};
ghost use Rattle.trivium.specs.Keystream.{trivium};
ghost use Rattle.blocks.specs.Blocks.{place};
ghost use Rattle.blocks.specs.Covering.{covered};
ghost use Rattle.frames.specs.Frames.{opening, block, holds, bytes, it};
ghost use Rattle.frames.specs.Told.{told, heard_as};
ghost use Rattle.receiver.specs.Receiver.{made_in, making_receiver, content_faults, frame_faults};
ghost use Rattle.receiver.specs.Receiver.{answered, answer_in, received, receiving};
ghost use Rattle.receiver.specs.Rules.{receiver_in_rule};

use frames::{FrameKind, Told};
use names::Names;
use refusals::Refusal;

// `count` is how many blocks are held.
#[derive(Clone, Copy)]
pub struct Receiver {
    pub key: [u8; 10],
    pub pair: [u8; 6],
    pub session: u32,
    pub length: u32,
    pub count: u16,
}

// What a frame that isn't refused brings about: an answer frame of this length, and the receiver afterwards.
#[derive(Clone, Copy)]
pub struct Answered {
    pub length: usize,
    pub receiver: Receiver,
}

// Room for any answer.
const ANSWER_ROOM: usize = 7;

impl Receiver {
    // A receiver with a key of ten bytes and a pair name of six.
    pub fn new(key: &[u8], pair: &[u8]) -> Result<Receiver, Refusal>
        ensures { made_in result ≡ making_receiver key.now pair.now }
    {
        let Names { key, pair } = names::check_names(key, pair)?;
        Ok(Receiver {
            key,
            pair,
            session: 0,
            length: 0,
            count: 0,
        })
    }

    // Whether the record is in rule.
    pub fn in_rule(self) -> bool
        ensures { result ≡ receiver_in_rule self }
    {
        self.length as usize <= blocks::MOST_BYTES
            && (1 <= self.session || (self.length == 0 && self.count == 0))
            && u32::from(self.count) <= blocks::block_count(self.length)
    }

    // Why it can't take an opening, if it can't. Only a later session may name another length.
    fn opening_fault(self, named: u32, long: u32) -> Result<(), Refusal>
        ensures { (sound : ℕ)
            → number_in result ≡ first (content_faults self sound (it (opening named long))) }
    {
        if named < self.session {
            return Err(Refusal::OtherSession);
        }
        if named == self.session && long != self.length {
            return Err(Refusal::OtherLength);
        }
        Ok(())
    }

    // Why it can't take block k, of n bytes, with so many bytes lent for the sound, if it can't.
    fn block_fault(self, named: u32, k: u16, n: usize, sound: usize) -> Result<(), Refusal>
        ensures { (run : List ℕ) → n ≡ length run
            → number_in result ≡ first (content_faults self sound (it (block named k run))) }
    {
        if named != self.session {
            return Err(Refusal::OtherSession);
        }
        let size = blocks::block_size(self.length as usize, k);
        if size == 0 || n != size {
            return Err(Refusal::Impossible);
        }
        if sound < self.length as usize {
            return Err(Refusal::WrongSound);
        }
        Ok(())
    }

    // Why it can't hear a frame with so many bytes lent for the sound, if it can't.
    fn frame_fault(self, what: Told, sound: usize) -> Result<(), Refusal>
        ensures { (run : List ℕ) → Some what ≡ told (heard_as run (Some what))
            → number_in result ≡ first (frame_faults self sound (heard_as run (Some what))) }
    {
        match what {
            Told::Opening(named, long) => self.opening_fault(named, long),
            Told::Block(named, k, n) => self.block_fault(named, k, n, sound),
            _ => Err(Refusal::NotAFrame),
        }
    }

    // Puts the sound of the block in turn to its place. A block's bytes begin at byte 8 of its frame.
    fn take(self, frame: &[u8], sound: &mut [u8])
        ensures { sound.new ≡ put sound.old (place self.count)
            (covered trivium self.key self.pair self.session self.count (drop 8 frame.now)) }
    {
        blocks::cover(
            &self.key,
            &self.pair,
            self.session,
            self.count,
            octets::slice(frame, 8, frame.len()),
            sound,
            blocks::BLOCK_BYTES * usize::from(self.count),
        );
    }

    // Answers how many blocks are held.
    fn holds(self, answer: &mut [u8]) -> Answered
        ensures { outcome result answer.new ≡ outcome (answered self 7)
            (put answer.old 0 (bytes (holds self.session self.count))) }
    {
        frames::write_short(
            answer,
            FrameKind::Holds as u64,
            self.session,
            2,
            self.count.into(),
        );
        Answered {
            length: 7,
            receiver: self,
        }
    }

    // Hears a frame of the sender, and writes the answer frame. Only a block in turn writes to the sound, and only its
    // own bytes.
    pub fn hear(
        self,
        frame: &[u8],
        sound: &mut [u8],
        answer: &mut [u8],
    ) -> Result<Answered, Refusal>
        ensures { received (answer_in self result) sound.new answer.new
            ≡ receiving trivium self sound.old answer.old frame.now }
    {
        if !self.in_rule() {
            return Err(Refusal::OutOfRule);
        }
        let Some(told) = frames::read(frame) else {
            return Err(Refusal::NotAFrame);
        };
        self.frame_fault(told, sound.len())?;
        if answer.len() < ANSWER_ROOM {
            return Err(Refusal::NoRoom);
        }
        match told {
            Told::Opening(session, length) if session != self.session => {
                if sound.len() < length as usize {
                    frames::write_short(answer, FrameKind::TooLong as u64, session, 0, 0);
                    return Ok(Answered {
                        length: 5,
                        receiver: self,
                    });
                }
                let begun = Receiver {
                    session,
                    length,
                    count: 0,
                    ..self
                };
                Ok(begun.holds(answer))
            }
            Told::Block(_, k, _) if k == self.count => {
                self.take(frame, sound);
                let taken = Receiver {
                    count: k + 1,
                    ..self
                };
                Ok(taken.holds(answer))
            }
            // a repeat: nothing changes
            _ => Ok(self.holds(answer)),
        }
    }
}
