#![tactic(auto)]

// Makes the demo pack: the demo sound, sealed under a Trivium key of the demo ring, written to standard output.
use pack::Kind;
use std::io;

fn main(rt: HostRuntime) -> io::Result<()> {
    demo_sound::write_pack(&rt, Kind::Trivium, b"Choir", 2, b"demo value")
}
