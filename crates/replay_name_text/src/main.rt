// Replays name text over a list that is read from standard input: each line an input and a rewriting in hexadecimal and an index; then the
// number and offset of the refusal, 0 0 for a text; 0 for a part of the input or 1 for one of the rewriting, its start, its length and its
// bytes. Writes for how many lines name text tells so, and for how many not.
// as: the number fits, or u64 and usize have no From; try_from would give an error that cannot happen.
#![tactic(auto)]

use name_text::Place;
use numbering::NameError;
use replay_lines::Cursor;
use std::io;

// What a line says of the answer, and of the part and its bytes. Number 0 is that of no refusal, as the line has it.
#[derive(Clone, Copy, PartialEq, Eq, Debug)]
pub struct Told<'a> {
    pub number: u64,
    pub offset: u64,
    pub rewriting: bool,
    pub from: u64,
    pub count: u64,
    pub bytes: &'a [u8],
}

impl Told<'_> {
    // Whether name text answered with this number and offset.
    fn is(self, a: Result<(), NameError>) -> bool {
        match a {
            Ok(()) => self.number == 0 && self.offset == 0,
            Err(e) => replay_lines::is_refusal(e, self.number, self.offset),
        }
    }

    // Whether the part lies where the line says; that of a refusal is the empty one at the input's start.
    fn lies(self, found: Result<Place, NameError>) -> bool {
        let empty = Place {
            rewriting: false,
            from: 0,
            count: 0,
        };
        let told = Place {
            rewriting: self.rewriting,
            from: self.from as usize,
            count: self.count as usize,
        };
        found.unwrap_or(empty) == told
    }

    // Whether all of name text tells so: the part and its answer, the answer alone, and the bytes.
    fn comes(self, input: &[u8], rewriting: &[u8], index: usize) -> bool {
        let found = name_text::part_of(input, rewriting, index);
        self.lies(found)
            && self.is(found.map(|_| ()))
            && self.is(name_text::name_answer(input, rewriting, index))
            && name_text::name_text(input, rewriting, index) == self.bytes
    }
}

// Reads a line, and returns whether name text tells what it says.
pub fn name_text_line(line: &mut Cursor<'_>) -> bool {
    let mut input = [0u8; replay_lines::RECORD];
    let mut rewriting = [0u8; replay_lines::REWRITING];
    let mut bytes = [0u8; 256];
    let input = line.bytes(&mut input);
    line.skip(b' ');
    let rewriting = line.bytes(&mut rewriting);
    let index = line.number();
    let number = line.number();
    let offset = line.number();
    let side = line.number() == 1;
    let from = line.number();
    let count = line.number();
    line.skip(b' ');
    let bytes = line.bytes(&mut bytes);
    let told = Told {
        number,
        offset,
        rewriting: side,
        from,
        count,
        bytes,
    };
    told.comes(input, rewriting, index as usize)
}

fn main(rt: HostRuntime) -> io::Result<()> {
    let mut text = [0u8; replay_lines::LONGEST];
    replay_lines::tell(&mut rt.stdin(), &mut rt.stdout(), &mut text, name_text_line)
}
