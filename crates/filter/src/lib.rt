// The program's reading and writing, for the programs that differ only in what they are run on: each is run on one input, so there is one for
// each input. The lengths of both arrays are those that report::program_read takes; any other is an error of type.
#![tactic(auto)]

ghost use Rattle.std.specs.Prelude.{IfSome, OnOk};
ghost use Rattle.std.specs.Io.KnownBytes.{Appends};
ghost use Rattle.numbering.specs.Program.{program_output};

use report::{BUFFER, MOST_INPUT};
use std::io;
use std::io::{Read, Write};

// Input to output through rewrite: of a reader whose bytes are known, what is written without an error is the program's output. It reads a
// byte more than it takes, so that an input that is too long is told.
pub fn run<R: Read, W: Write>(reader: &mut R, writer: &mut W) -> io::Result<()>
    ensures { OnOk result (IfSome (R.remaining reader.old)
        (λ xs. Appends (W.contents writer.old) (W.contents writer.new) (program_output xs))) }
{
    let mut input = [0u8; MOST_INPUT + 1];
    let mut buffer = [0u8; BUFFER];
    // Counts of what stands first in the arrays: of one that a result is lent from, no clause says what it holds then.
    let count = read_input::read_full(reader, &mut input)?;
    let n = report::program_read(&input, count, &mut buffer);
    writer.write_all(&buffer[..n])
}
