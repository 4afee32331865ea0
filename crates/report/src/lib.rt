// What the program prints, put into a lent buffer: the rewriting's bytes, or the line of a refusal.
// as: the number fits, or u64 and usize have no From; try_from would give an error that cannot happen.
#![tactic(auto)]

ghost use Rattle.std.specs.Prelude.{◌≡◌, [], ◌∷◌, ◌≤◌, length, take};
ghost use Rattle.numbering.specs.Program.{refused_line, program_output};
ghost use Rattle.write_bytes.specs.Put.{Wrote};

use record::{OWN_REFUSAL, Refuses};

// The bytes of the longest input that the program takes: `most_input` of numbering/specs/Program.
pub const MOST_INPUT: usize = 8192;

// The bytes of the program's buffer: `buffer_size` of numbering/specs/Program.
pub const BUFFER: usize = 65536;

// The line of a refusal, from the first byte on; how long it is. By the parts and not by write!, which hands out an error that cannot be, and
// whose promise for a lent slice says nothing of the bytes that then stand in it.
pub fn put_refusal(out: &mut [u8], number: u8, value: usize) -> usize
    ensures { Wrote out.old out.new 0 result (refused_line (record { number = number; values = value ∷ [] })) × (result ≤ 36) }
{
    let p = write_bytes::put_text(out, 0, b"refused ");
    let q = write_bytes::put_digits(out, p, u64::from(number));
    let from = write_bytes::put_text(out, q, b" at ");
    let end = write_bytes::put_digits(out, from, value as u64);
    write_bytes::put_u8(out, end, b'\n');
    end + 1
}

// All that the program does between reading and writing: what it prints of the input stands in the buffer's first bytes; how many they are.
// The count and not the bytes themselves: of a buffer that a result is lent from, no clause says what it holds then.
pub fn program(input: &[u8], buffer: &mut [u8; BUFFER]) -> usize
    ensures { (result ≤ length buffer.new) × (take result buffer.new ≡ program_output input.now) }
{
    if input.len() > MOST_INPUT {
        return put_refusal(buffer, OWN_REFUSAL, MOST_INPUT);
    }
    match rewrite::rewrite(input, buffer) {
        Ok(written) => written.bytes,
        Err(e) => put_refusal(buffer, e.number(), e.value()),
    }
}

// `program` of what was read: the first `count` bytes of the array, which are all if it has not so many. An array of another length is an error of
// type: one byte more than the longest input tells whether there is more.
pub fn program_read(input: &[u8; MOST_INPUT + 1], count: usize, buffer: &mut [u8; BUFFER]) -> usize
    ensures { (result ≤ length buffer.new) × (take result buffer.new ≡ program_output (take count input.now)) }
{
    let read: &[u8] = input;
    program(&read[..count.min(read.len())], buffer)
}
