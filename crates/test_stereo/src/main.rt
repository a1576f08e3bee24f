#![tactic(auto)]

// Packs opened as frames of floats, by the rows of `test_pack_rows`.
use std::io;

fn main(rt: HostRuntime) -> io::Result<()> {
    test_pack_rows::run_all(&rt)
}
