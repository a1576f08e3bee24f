#![tactic(auto)]

ghost use Rattle.std.specs.Prelude.{◌≡◌};
ghost use Rattle.names.specs.Naming.{named, named_in};

use refusals::Refusal;

pub const KEY_BYTES: usize = 10;

pub const PAIR_BYTES: usize = 6;

// The key and the pair name of a link end.
#[derive(Clone, Copy)]
pub struct Names {
    pub key: [u8; KEY_BYTES],
    pub pair: [u8; PAIR_BYTES],
}

// A key of ten bytes and a pair name of six, by value.
pub fn check_names(key: &[u8], pair: &[u8]) -> Result<Names, Refusal>
    ensures { named_in result ≡ named key.now pair.now }
{
    let Ok(key) = key.try_into() else {
        return Err(Refusal::BadKey);
    };
    let Ok(pair) = pair.try_into() else {
        return Err(Refusal::BadValue);
    };
    Ok(Names { key, pair })
}
