// The program, run on nothing.
#![tactic(auto)]

use std::io;

fn main(rt: HostRuntime) -> io::Result<()> {
    filter::run(&mut rt.stdin(), &mut rt.stdout())
}
