// Replays runs of records, read from standard input: each line a record, a store and a list of answers in hexadecimal, `-` for one that is
// empty, the limit, the number and the five values of the answer, then the events and the final store in hexadecimal, `-` for none. Writes
// for how many lines the engine answers so, and leaves in what is lent what it should, and for how many not.
// as: the number fits, or u64 and usize have no From; try_from would give an error that cannot happen.
#![tactic(auto)]

ghost use Rattle.std.specs.Prelude.{◌≤◌, length};

use replay_lines::Cursor;
use running::{Run, RunError};
use std::io;

// The most bytes of the events and of a store in a list.
const MOST_EVENTS: usize = 16384;

const MOST_STORE: usize = 4357;

// Three more are lent at most, and three behind them are not.
const EVENTS: usize = MOST_EVENTS + 6;

const STORE: usize = MOST_STORE + 6;

// What each byte has at the start.
const FILL: u8 = 0xEE;

// What is run: a record, a store, a list of answers and a limit.
#[derive(Clone, Copy, PartialEq, Eq, Debug)]
pub struct Case<'a> {
    pub record: &'a [u8],
    pub store: &'a [u8],
    pub answers: &'a [u8],
    pub limit: u64,
}

// What a line says of the answer: its number and values, the events and the final store. No replay_lines::Expected: it is of a case and not of a
// record alone, and two buffers are lent. Number 0 is that of no refusal, as the line has it.
#[derive(Clone, Copy, PartialEq, Eq, Debug)]
pub struct Answer<'a> {
    pub number: u64,
    pub values: [u64; 5],
    pub events: &'a [u8],
    pub left: &'a [u8],
}

impl Answer<'_> {
    // Whether the engine answered with this number and these values.
    fn is(self, a: Result<Run, RunError>) -> bool {
        let n = engine_answer::in_numbers(a);
        u64::from(n.number) == self.number && n.values == self.values
    }

    // Whether the engine, with so many bytes lent for the events and for the store, answers so and puts these events and this store there, no
    // other changed; three more of each are looked at.
    fn comes(self, case: Case<'_>, room: usize, more: usize) -> bool {
        if room > EVENTS - 3 || more > STORE - 3 {
            return false;
        }
        let mut out = [FILL; EVENTS];
        let mut last = [FILL; STORE];
        replay_lines::leaves(&mut out[..room + 3], room, self.events, FILL, |events| {
            replay_lines::leaves(&mut last[..more + 3], more, self.left, FILL, |left| {
                self.is(engine::run(
                    case.record,
                    case.store,
                    case.answers,
                    case.limit,
                    events,
                    left,
                ))
            })
        })
    }

    // Whether it answers that there is no room and puts nothing there, with so many bytes lent where these events and this store do not fit.
    fn falls_short(self, case: Case<'_>, room: usize, more: usize) -> bool {
        let e = self.events.len();
        let l = self.left.len();
        let short = Answer {
            number: u64::from(RunError::Room(e, l).number()),
            values: [e as u64, l as u64, 0, 0, 0],
            events: &[],
            left: &[],
        };
        short.comes(case, room, more)
    }

    // Whether a run that is done is answered so: with as many bytes as are needed, with three more of each, and with one too few of the one or
    // the other. There may be no events; a store has its length and version.
    fn comes_done(self, case: Case<'_>) -> bool {
        let e = self.events.len();
        let l = self.left.len();
        e < EVENTS
            && l < STORE
            && self.comes(case, e, l)
            && self.comes(case, e + 3, l + 3)
            && (e == 0 || self.falls_short(case, e - 1, l))
            && l > 0
            && self.falls_short(case, e, l - 1)
    }
}

// Reads the bytes that come next, or behind a space, as far as the room goes; `-` stands for none.
fn bytes<'a>(line: &mut Cursor<'_>, room: &'a mut [u8]) -> &'a [u8]
    ensures { length result.now ≤ length room.old }
{
    line.skip(b' ');
    let read = line.bytes(room);
    line.skip(b'-');
    read
}

// Reads the five values of an answer.
fn values(line: &mut Cursor<'_>) -> [u64; 5] {
    let mut each = [0; 5];
    for x in each.iter_mut() {
        *x = line.number();
    }
    each
}

// Reads a line, and returns whether the engine answers as it says; number 0 stands for a run that is done, and others have seven bytes of each.
pub fn run_line(line: &mut Cursor<'_>) -> bool {
    let mut record = [0u8; 1024];
    let mut store = [0u8; 512];
    let mut answers = [0u8; 4096];
    let mut events = [0u8; MOST_EVENTS];
    let mut left = [0u8; MOST_STORE];
    let case = Case {
        record: bytes(line, &mut record),
        store: bytes(line, &mut store),
        answers: bytes(line, &mut answers),
        limit: line.number(),
    };
    let answer = Answer {
        number: line.number(),
        values: values(line),
        events: bytes(line, &mut events),
        left: bytes(line, &mut left),
    };
    if answer.number == 0 {
        answer.comes_done(case)
    } else {
        answer.comes(case, 7, 7)
    }
}

fn main(rt: HostRuntime) -> io::Result<()> {
    let mut text = [0u8; replay_lines::LONGEST];
    replay_lines::tell(&mut rt.stdin(), &mut rt.stdout(), &mut text, run_line)
}
