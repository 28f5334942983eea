// The program `check`: reads a record from standard input and prints what check answers of it.
#![tactic(auto)]

use answers::run::run_check;
use std::io;

#[cfg(test)]
mod tests;

fn main(rt: HostRuntime) -> io::Result<()> {
    run_check(rt.stdin(), &mut rt.stdout(), rt.alloc())
}
