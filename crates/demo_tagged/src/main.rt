#![tactic(auto)]

// Makes the demo pack with a tag: the demo sound, sealed under a TRIAD key of the demo ring, written to standard
// output.
use pack::Kind;
use std::io;

fn main(rt: HostRuntime) -> io::Result<()> {
    demo_sound::write_pack(&rt, Kind::Triad, b"Dealer", 3, b"demo value 1")
}
