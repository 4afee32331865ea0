// What the program that runs an accession writes, put into lent buffers: the answer, the events and the final store.
// as: u64 and usize have no From; try_from would give an error that cannot happen.
#![tactic(auto)]

ghost use Rattle.std.specs.Prelude.{◌≡◌, ◌+◌, ◌*◌, ◌≤◌, length, take};
ghost use Rattle.running.specs.Engine.{engine_answer};
ghost use Rattle.running.specs.Program.{most_run_input, part_end, returned_bytes, refused_input, output_of, output_with, run_output};
ghost use Rattle.engine_report.specs.Shows.{Shows, parts_of};

use record::OWN_REFUSAL;
use running::{Run, RunError};

// The bytes of the longest input that the program takes: `most_run_input` of running/specs/Program.
pub const MOST_INPUT: usize = 262144;

// The bytes of the program's buffer for the events: `events_room` of running/specs/Program.
pub const EVENTS: usize = 1048576;

// The bytes of the program's buffer for the final store: `store_room` of running/specs/Program.
pub const STORE: usize = 8192;

// The most bytes of an answer: its number and five values.
pub const HEAD: usize = 41;

// How many bytes of the answer, of the events and of the store are to be written, one part after the other.
#[derive(Clone, Copy, PartialEq, Eq, Debug)]
pub struct Parts {
    pub head: usize,
    pub events: usize,
    pub left: usize,
}

impl Parts {
    // An answer of so many bytes, and nothing behind it.
    fn answer(head: usize) -> Parts
        ensures { result ≡ record { head = head; events = 0; left = 0 } }
    {
        Parts {
            head,
            events: 0,
            left: 0,
        }
    }
}

// A number in one byte and each value in eight, from the first byte on; how many bytes they are. write_instrs::put_row writes a list too, of
// u16 in two bytes: one function for both would have a type, a width and a law that its numbers fit, for two loops of four lines.
fn put_returned(out: &mut [u8; HEAD], number: u8, values: &[u64]) -> usize
    requires { length values.now ≤ 5 }
    ensures end { result ≡ 1 + 8 * length values.now }
    ensures bytes { take result out.new ≡ returned_bytes (record { number = number; values = values.now }) }
{
    write_bytes::put_u8(out, 0, number);
    let mut end = 1;
    for v in values {
        write_bytes::put_u64(out, end, *v);
        end += 8;
    }
    end
}

// The engine's answer: its number and as many values as it has; how many bytes they are.
fn put_answer(out: &mut [u8; HEAD], a: Result<Run, RunError>) -> usize
    ensures { (result ≤ 41) × (take result out.new ≡ returned_bytes (engine_answer a)) }
{
    let n = engine_answer::in_numbers(a);
    put_returned(out, n.number, n.given())
}

// The refusal of an input that is too long, or whose limit is not 8 bytes long: 10 with its value, and nothing behind it.
fn put_refused(out: &mut [u8; HEAD], value: usize) -> Parts
    ensures { (result ≡ record { head = 9; events = 0; left = 0 }) × (take 9 out.new ≡ refused_input value) }
{
    Parts::answer(put_returned(out, OWN_REFUSAL, &[value as u64]))
}

// Behind it stand events and store when the run is done.
#[tactic(auto, unfolding(crate::specs::Shows::parts_of))]
fn parts_of(head: usize, a: Result<Run, RunError>) -> Parts
    ensures { result ≡ parts_of head a }
{
    match a {
        Ok(run) => Parts {
            head,
            events: run.events,
            left: run.store,
        },
        Err(_) => Parts::answer(head),
    }
}

// Where the part that begins at a place ends.
fn part_end(s: &[u8], at: usize) -> usize
    requires { at ≤ length s.now }
    ensures { (result ≡ part_end s.now at) × ((at ≤ result) × (result ≤ length s.now)) }
{
    let n = 4 + read_fields::be::<4>(s, at) as usize;
    if read_fields::left(s, at) < n {
        return s.len();
    }
    at + n
}

// Of an input whose store, answers and limit begin at a, b and c.
fn run_from(
    s: &[u8],
    a: usize,
    b: usize,
    c: usize,
    head: &mut [u8; HEAD],
    events: &mut [u8],
    left: &mut [u8],
) -> Parts
    requires { (a ≤ b) × ((b ≤ c) × (c ≤ length s.now)) }
    ensures { Shows result head.new events.new left.new
        (output_of (length events.old) (length left.old) s.now a b c) }
{
    if s.len() - c != 8 {
        return put_refused(head, c);
    }
    let limit = read_fields::be::<8>(s, c);
    let ran = engine::run(&s[..a], &s[a..b], &s[b..c], limit, events, left);
    let n = put_answer(head, ran);
    parts_of(n, ran)
}

// Of an input that is not too long.
fn run_input(s: &[u8], head: &mut [u8; HEAD], events: &mut [u8], left: &mut [u8]) -> Parts
    requires { length s.now ≤ most_run_input }
    ensures { Shows result head.new events.new left.new
        (output_with (length events.old) (length left.old) s.now) }
{
    let a = part_end(s, 0);
    let b = part_end(s, a);
    let c = part_end(s, b);
    run_from(s, a, b, c, head, events, left)
}

// All that the program does between reading and writing: what it writes of the input stands first in the three buffers. Counts and not the bytes
// themselves: of a buffer that a result is lent from, no clause says what it holds then.
pub fn program(
    input: &[u8],
    events: &mut [u8; EVENTS],
    left: &mut [u8; STORE],
    head: &mut [u8; HEAD],
) -> Parts
    ensures { Shows result head.new events.new left.new (run_output input.now) }
{
    if input.len() > MOST_INPUT {
        return put_refused(head, MOST_INPUT);
    }
    run_input(input, head, events, left)
}
