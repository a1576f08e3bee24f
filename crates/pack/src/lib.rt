#![tactic(auto)]

ghost use Rattle.std.specs.Prelude.{◌≡◌};
ghost use Rattle.pack.specs.Ciphers.{cipher_of, named_by, picked};
ghost use Rattle.pack.specs.Layout.{name_good, tag_length};

use refusals::Refusal;

// The ciphers that a pack may be under.
#[derive(Clone, Copy)]
pub enum Kind {
    Trivium,
    Enocoro,
    Triad,
}

// The keys that a caller holds: a ring of four for each cipher, of which a pack's key number names one.
#[derive(Clone, Copy)]
pub struct Rings {
    pub of_trivium: [[u8; 10]; 4],
    pub of_enocoro: [[u8; 16]; 4],
    pub of_triad: [[u8; 16]; 4],
}

// What an accepted file holds, and where.
#[derive(Clone, Copy)]
pub struct Opened {
    pub samples: usize,
    pub key: u8,
    pub loops: usize,
    pub name_length: usize,
    pub name_at: usize,
    pub value_at: usize,
    pub loops_at: usize,
}

// The limits of a pack's counts and numbers, for the code: what each says stands in specs/Limits.antt.
pub const MOST_NAME: usize = 32;

pub const LAST_KEY: u8 = 3;

pub const MOST_SAMPLES: usize = 16384;

pub const MOST_LOOPS: usize = 8;

// What the key section counts, its key number and an initial value: so it tells the cipher.
pub const TRIVIUM_COUNT: u8 = 11;

pub const ENOCORO_COUNT: u8 = 9;

pub const TRIAD_COUNT: u8 = 13;

// How many bytes a tag has, and its section with the count in front, where there is one.
pub const TAG_BYTES: usize = 8;

pub const TAG_SECTION: usize = 9;

impl TryFrom<u8> for Kind {
    type Error = Refusal;

    ghost try_from_gives = { λ count named. named ≡ named_by count };

    // The cipher that has this key count.
    fn try_from(count: u8) -> Result<Kind, Refusal> {
        match count {
            TRIVIUM_COUNT => Ok(Kind::Trivium),
            ENOCORO_COUNT => Ok(Kind::Enocoro),
            TRIAD_COUNT => Ok(Kind::Triad),
            _ => Err(Refusal::BadKeyCount),
        }
    }
}

impl Kind {
    // The cipher that a key count picks: a count that no cipher has is held to Trivium's.
    pub fn picked(count: u8) -> Kind
        ensures { result ≡ picked count }
    {
        Kind::try_from(count).unwrap_or(Kind::Trivium)
    }

    // How many bytes an initial value has.
    pub fn value_bytes(self) -> usize
        ensures { result ≡ (cipher_of self).value_bytes }
    {
        match self {
            Kind::Trivium => trivium::VALUE_BYTES,
            Kind::Enocoro => enocoro::VALUE_BYTES,
            Kind::Triad => triad::VALUE_BYTES,
        }
    }

    // How many bytes the tag section has: its count and the tag, or nothing.
    pub fn tag_length(self) -> usize
        ensures { result ≡ tag_length (cipher_of self) }
    {
        match self {
            Kind::Trivium | Kind::Enocoro => 0,
            Kind::Triad => TAG_SECTION,
        }
    }
}

// Whether each byte of a name is one that a name may have.
pub fn name_good(name: &[u8]) -> bool
    ensures { result ≡ name_good name.now }
{
    name.iter().all(|byte| matches!(byte, 32..=126))
}
