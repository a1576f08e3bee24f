#![tactic(auto)]

ghost use Rattle.std.specs.Prelude.{◌≡◌};
ghost use Rattle.windows.specs.Windows.{arrived, arriving, map_in_rule};

// How many blocks may be in the air.
pub const WINDOW: u32 = 16;

// The map that marks no block.
pub const EMPTY: u16 = 0;

// What a fresh block's arrival brings about: by how much the count of blocks held moves, and the map afterwards.
#[derive(Clone, Copy)]
pub struct Arrival {
    pub moved: u16,
    pub map: u16,
}

// A block arrives that is so far past the count held. One that isn't fresh is not to be placed, and changes nothing.
pub fn arrive(map: u16, ahead: u16) -> Option<Arrival>
    ensures { arrived map result ≡ arriving map ahead }
{
    if WINDOW <= ahead as u32 || (map >> ahead) % 2 == 1 {
        return None;
    }
    let full = map + (1 << ahead);
    let moved = u16::trailing_zeros(!full);
    Some(Arrival {
        moved: moved as u16,
        // in a wider word, since a run may be all 16 bits
        map: ((full as u32) >> moved) as u16,
    })
}

// Whether a map is in rule where so many blocks are left from the count on.
pub fn map_in_rule(map: u16, left: u32) -> bool
    ensures { result ≡ map_in_rule map left }
{
    map % 2 == 0 && (WINDOW <= left || (map as u32) >> left == 0)
}
