// Replays records that are widened or narrowed, read from standard input: each line a record in hexadecimal, the version that is wanted, a
// number, a value and bytes. They are 0, the count of bytes written and these bytes; or the number and value of a refusal, and no bytes.
// Writes for how many lines widen, for version 2, or narrow, for version 1, answers so, and for how many not.
// as: the number fits, or u64 and usize have no From; try_from would give an error that cannot happen.
#![tactic(auto)]

use record::{ConvertError, Refuses};
use replay_lines::{Cursor, Expected};
use std::io;

// What each byte of an output is at the start.
const FILL: u8 = 0xEE;

// What a line says: whether version 2 is wanted, and of the answer its number, its value and the bytes that are put into the output. Number 0 is
// that of no refusal, as the line has it.
#[derive(Clone, Copy, PartialEq, Eq, Debug)]
pub struct Answer<'a> {
    pub wide: bool,
    pub number: u64,
    pub value: u64,
    pub bytes: &'a [u8],
}

impl Answer<'_> {
    // Whether the answer has this number and value.
    fn is(self, a: Result<usize, ConvertError>) -> bool {
        match a {
            Ok(n) => self.number == 0 && self.value == n as u64 && self.bytes.len() == n,
            Err(e) => replay_lines::is_refusal(e, self.number, self.value),
        }
    }
}

impl Expected for Answer<'_> {
    // The length of the longest output.
    const MOST: usize = replay_lines::REWRITING;

    fn number(self) -> u64 {
        self.number
    }

    // Whether widen or narrow, with an output of this length, answers so and puts these bytes there, no other changed.
    fn comes(self, record: &[u8], length: usize) -> bool {
        let mut out = [FILL; Self::MOST];
        replay_lines::leaves(&mut out, length, self.bytes, FILL, |lent| {
            self.is(if self.wide {
                convert::widen(record, lent)
            } else {
                convert::narrow(record, lent)
            })
        })
    }

    // With bytes to spare, with as many as are needed, and with one too few.
    fn comes_accepted(self, record: &[u8]) -> bool {
        let n = self.bytes.len();
        let room = Answer {
            wide: self.wide,
            number: u64::from(ConvertError::Room(n).number()),
            value: n as u64,
            bytes: &[],
        };
        n > 0
            && self.comes(record, Self::MOST)
            && self.comes(record, n)
            && room.comes(record, n - 1)
    }
}

// Reads a line, and returns whether the record is answered as it says; number 0 stands for a record that is written.
pub fn convert_line(line: &mut Cursor<'_>) -> bool {
    let mut input = [0u8; replay_lines::RECORD];
    let mut output = [0u8; Answer::MOST];
    let record = line.bytes(&mut input);
    let version = line.number();
    let number = line.number();
    let value = line.number();
    line.skip(b' ');
    let bytes = line.bytes(&mut output);
    let answer = Answer {
        wide: version == 2,
        number,
        value,
        bytes,
    };
    (version == 1 || version == 2) && answer.agrees(record)
}

fn main(rt: HostRuntime) -> io::Result<()> {
    let mut text = [0u8; replay_lines::LONGEST];
    replay_lines::tell(&mut rt.stdin(), &mut rt.stdout(), &mut text, convert_line)
}
