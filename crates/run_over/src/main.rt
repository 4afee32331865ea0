// The program, run on 8,193 bytes: the record of run_longest and a byte behind it.
#![tactic(auto)]

use std::io;

fn main(rt: HostRuntime) -> io::Result<()> {
    filter::run(&mut rt.stdin(), &mut rt.stdout())
}
