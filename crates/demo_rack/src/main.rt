#![tactic(auto)]

// Makes the demo pack of the rack: the demo sound, sealed under an Enocoro key of the demo ring, written to standard
// output.
use pack::Kind;
use std::io;

fn main(rt: HostRuntime) -> io::Result<()> {
    demo_sound::write_pack(&rt, Kind::Enocoro, b"Rack", 1, b"demo val")
}
