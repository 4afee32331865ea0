// Replays a list of damaged records, read from standard input: each line a record in hexadecimal, the number of check's refusal and its
// offset, 0 0 for a record that is accepted. Writes how many answers agree and how many do not.
// as: the number fits, or u64 and usize have no From; try_from would give an error that cannot happen.
#![tactic(auto)]

use record::Fault;
use replay_lines::Cursor;
use std::io;

// Whether check answered with this number and offset. By hand, and not by replay_lines::is_refusal: a Fault is a type of record, below the trait
// Refuses.
pub fn checked_so(answer: Result<(), Fault>, number: u64, offset: u64) -> bool {
    match answer {
        Ok(()) => number == 0 && offset == 0,
        Err(f) => u64::from(u8::from(f.refusal)) == number && f.offset as u64 == offset,
    }
}

// Reads a line, and returns whether check answers as it says.
pub fn check_line(line: &mut Cursor<'_>) -> bool {
    let mut room = [0u8; 16384];
    let record = line.bytes(&mut room);
    let number = line.number();
    let offset = line.number();
    checked_so(checker::check(record), number, offset)
}

fn main(rt: HostRuntime) -> io::Result<()> {
    let mut text = [0u8; replay_lines::LONGEST];
    replay_lines::tell(&mut rt.stdin(), &mut rt.stdout(), &mut text, check_line)
}
