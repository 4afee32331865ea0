// Replays records with their figures, read from standard input: each line a record in hexadecimal, a number and two values. They are 0, the
// bytes and the saves of the rewriting of a record that is accepted, and then each block's figure; or the number and offset of a refusal,
// and 0. Writes for how many lines figures answers so, and for how many not.
// as: the number fits, or u64 and usize have no From; try_from would give an error that cannot happen.
#![tactic(auto)]

ghost use Rattle.std.specs.Prelude.{◌≤◌, length};

use numbering::{FiguresError, Totals};
use record::Refuses;
use replay_lines::{Cursor, Expected};
use std::io;

// What each place has at the start.
const FILL: u16 = 0xEEEE;

// What a line says of the answer: its number, the values that go with it, and each block's figure. Number 0 is that of no refusal, as the line has it.
#[derive(Clone, Copy, PartialEq, Eq, Debug)]
pub struct Answer<'a> {
    pub number: u64,
    pub value: u64,
    pub saves: u64,
    pub each: &'a [u16],
}

impl Answer<'_> {
    // Whether figures answered so.
    fn is(self, a: Result<Totals, FiguresError>) -> bool {
        match a {
            Ok(t) => {
                self.number == 0 && self.value == t.bytes as u64 && self.saves == t.saves as u64
            }
            Err(e) => replay_lines::is_refusal(e, self.number, self.value),
        }
    }
}

impl Expected for Answer<'_> {
    // More places than an accepted record has blocks.
    const MOST: usize = 66;

    fn number(self) -> u64 {
        self.number
    }

    // Whether figures, with so many places, answers so and puts these figures there, no other place changed.
    fn comes(self, record: &[u8], count: usize) -> bool {
        let mut places = [FILL; Self::MOST];
        replay_lines::leaves(&mut places, count, self.each, FILL, |lent| {
            self.is(figures::figures(record, lent))
        })
    }

    // With as many places as blocks, with one more, and with one too few.
    fn comes_accepted(self, record: &[u8]) -> bool {
        let n = self.each.len();
        let few = Answer {
            number: u64::from(FiguresError::TooFew.number()),
            value: 0,
            saves: 0,
            each: &[],
        };
        n < Self::MOST
            && self.comes(record, n)
            && self.comes(record, n + 1)
            && (n == 0 || few.comes(record, n - 1))
    }
}

// Reads the numbers that are left of a line, each behind a space, as far as the places go, and returns their last 16 bits.
pub fn numbers<'a>(line: &mut Cursor<'_>, places: &'a mut [u16]) -> &'a [u16]
    ensures { length result.now ≤ length places.old }
{
    line.each(places, |rest| {
        // `number` reads the space itself.
        let mut ahead = *rest;
        ahead.skip(b' ').then(|| (rest.number() % 65536) as u16)
    })
}

// Reads a line, and returns whether figures answers as it says; number 0 stands for a record that is accepted.
pub fn figures_line(line: &mut Cursor<'_>) -> bool {
    let mut input = [0u8; replay_lines::RECORD];
    let mut places = [0u16; Answer::MOST];
    let record = line.bytes(&mut input);
    let number = line.number();
    let value = line.number();
    let saves = line.number();
    let each = numbers(line, &mut places);
    let answer = Answer {
        number,
        value,
        saves,
        each,
    };
    answer.agrees(record)
}

fn main(rt: HostRuntime) -> io::Result<()> {
    let mut text = [0u8; replay_lines::LONGEST];
    replay_lines::tell(&mut rt.stdin(), &mut rt.stdout(), &mut text, figures_line)
}
