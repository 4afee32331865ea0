// The program that runs an accession: record, store, answers and limit from standard input, the answer, the events and the final store to
// standard output. Run on a = call 3 (a); print a, with 5 in a, the answers 6 and go on, and 9 steps.
#![tactic(auto)]

ghost use Rattle.std.specs.Prelude.{IfSome, OnOk};
ghost use Rattle.std.specs.Io.KnownBytes.{Appends};
ghost use Rattle.running.specs.Program.{run_output};

use engine_report::{EVENTS, HEAD, MOST_INPUT, STORE};
use std::io;
use std::io::{Read, Write};

// Input to output, by way of the arrays lent: of a reader whose bytes are known, what is written without an error is the program's output. It
// reads a byte more than it takes, so that an input that is too long is told.
pub fn run<R: Read, W: Write>(
    reader: &mut R,
    writer: &mut W,
    input: &mut [u8; MOST_INPUT + 1],
    events: &mut [u8; EVENTS],
    left: &mut [u8; STORE],
) -> io::Result<()>
    ensures { OnOk result (IfSome (R.remaining reader.old)
        (λ xs. Appends (W.contents writer.old) (W.contents writer.new) (run_output xs))) }
{
    let mut head = [0u8; HEAD];
    // Counts of what stands first in the arrays: of one that a result is lent from, no clause says what it holds then.
    let n = read_input::read_full(reader, input)?;
    let parts = engine_report::program(&input[..n], events, left, &mut head);
    writer.write_all(&head[..parts.head])?;
    writer.write_all(&events[..parts.events])?;
    writer.write_all(&left[..parts.left])
}

fn main(rt: HostRuntime) -> io::Result<()> {
    let mut input = [0u8; MOST_INPUT + 1];
    let mut events = [0u8; EVENTS];
    let mut left = [0u8; STORE];
    run(
        &mut rt.stdin(),
        &mut rt.stdout(),
        &mut input,
        &mut events,
        &mut left,
    )
}
