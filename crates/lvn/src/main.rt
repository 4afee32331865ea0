// The program: standard input to standard output through rewrite. Run on C1.
#![tactic(auto)]

use std::io;

fn main(rt: HostRuntime) -> io::Result<()> {
    filter::run(&mut rt.stdin(), &mut rt.stdout())
}
