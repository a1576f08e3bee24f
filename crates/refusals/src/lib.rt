#![tactic(auto)]

ghost use Rattle.std.specs.Prelude.{◌≡◌};
ghost use Rattle.refusals.specs.Answers.{number_in, lacking_nothing};

// What a call that isn't refused answers, where an answer is a number.
pub const ACCEPTED: u8 = 0;

// Why a call is refused. The numbers are document 01's: what each says stands in specs/Numbers.antt.
#[derive(Clone, Copy, PartialEq, Eq)]
pub enum Refusal {
    BadKey = 1,
    BadValue = 2,
    NotACipher = 3,
    LongName = 11,
    BadName = 12,
    BadKeyCount = 13,
    BadKeyNumber = 14,
    ManySamples = 15,
    ManyLoops = 16,
    BadLoop = 17,
    MoreBytes = 18,
    NoRoom = 19,
    NoSession = 20,
    LongSound = 21,
    NoTransfer = 22,
    WrongSound = 23,
    NotAFrame = 24,
    OtherSession = 25,
    Impossible = 26,
    OutOfRule = 27,
    CutInName = 30,
    CutInKey = 31,
    CutInSamples = 32,
    CutInLoops = 33,
    LowestSample = 34,
    OddSamples = 35,
    OtherLength = 36,
    OutsideWindow = 37,
    WrongTag = 38,
    BadTagSection = 45,
}

// Why a file is refused, and how many bytes are missing of the section in which it breaks off.
#[derive(Clone, Copy, PartialEq, Eq)]
pub struct Flaw {
    pub refusal: Refusal,
    pub lacks: usize,
}

impl From<Refusal> for Flaw {
    ghost from_gives = { λ refusal flaw. flaw ≡ lacking_nothing refusal };

    fn from(refusal: Refusal) -> Flaw {
        Flaw { refusal, lacks: 0 }
    }
}

impl From<Flaw> for Refusal {
    ghost from_gives = { λ flaw refusal. refusal ≡ flaw.refusal };

    fn from(flaw: Flaw) -> Refusal {
        flaw.refusal
    }
}

// The number of an answer, for callers in other languages: 0 where the call isn't refused.
pub fn number(answer: Result<(), Refusal>) -> u8
    ensures { result ≡ number_in answer }
{
    match answer {
        Ok(()) => ACCEPTED,
        Err(refusal) => refusal as u8,
    }
}
