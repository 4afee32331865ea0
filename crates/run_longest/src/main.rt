// The program, run on an accepted record of 8,192 bytes, the most that it takes; the rewriting has 60,930.
#![tactic(auto)]

use std::io;

fn main(rt: HostRuntime) -> io::Result<()> {
    filter::run(&mut rt.stdin(), &mut rt.stdout())
}
