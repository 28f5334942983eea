// The program `clear`: reads a sheet from standard input and prints the record of its round, cleared.
#![tactic(auto)]

use answers::run::run_clear;
use std::io;

fn main(rt: HostRuntime) -> io::Result<()> {
    run_clear(rt.stdin(), &mut rt.stdout(), rt.alloc())
}
