// Instructions of an accepted record read again: nothing is tested, and past the end a byte is 0.
#![tactic(auto)]

ghost use Rattle.std.specs.Prelude.{◌≡◌, cond, ◌+◌, ◌*◌, ◌^◌, ◌<◌, ◌≤◌};
ghost use Rattle.record.specs.Record.{no_lit};
ghost use Rattle.record.specs.Shape.{shape_of};
ghost use Rattle.record.specs.Reader.{num_at};
ghost use Rattle.record.specs.Good.{LitOk};
ghost use Rattle.record.specs.Answer.{literal_of};
ghost use Rattle.record.specs.View.{row_of};
ghost use Rattle.record.specs.Decode.{two_on, number_from, items, count_from, count_at, operands_from, instr_from};
ghost use Rattle.record.specs.Sizes.{longest_operands, longest_instr};
ghost use Rattle.read_fields.specs.Places.{places};
ghost use Rattle.write_bytes.specs.Put.{IdWidth};
ghost use Rattle.read_instrs.specs.Again.{lit_from, Readable, PartsAt, OperandsAgain, ReadAgain};

use record::{Instruction, Literal, NameIx, Row, Shape};

// An instruction and the place behind it.
#[derive(Clone, Copy, Debug)]
pub struct Read {
    pub instr: Instruction,
    pub next: usize,
}

// An id of w bytes.
pub fn read_id(s: &[u8], at: usize, w: usize) -> u64
    requires { (at + 7 < places) × IdWidth w }
    ensures { (result ≡ num_at s.now at w) × (result < 256 ^ w) }
{
    if w == 8 {
        return read_fields::be::<8>(s, at);
    }
    read_fields::be::<4>(s, at)
}

// A number of two bytes, where it is there; else 0 and no None, which is what the definition's instruction has there.
fn two_if(there: bool, s: &[u8], at: usize) -> u16
    requires { at + 1 < places }
    ensures { result ≡ cond there (num_at s.now at 2) 0 }
{
    if there { read_fields::u16_at(s, at) } else { 0 }
}

// A literal, where it is there; else the int 0, which is what the definition's instruction has there.
fn read_literal(there: bool, s: &[u8], at: usize) -> Literal
    requires { (at + 8 < places) × LitOk (cond there (lit_from s.now at) no_lit) }
    ensures { literal_of result ≡ cond there (lit_from s.now at) no_lit }
{
    if there {
        return codes::literal_of(read_fields::byte_or(s, at), read_fields::be::<8>(s, at + 1));
    }
    Literal::Int(0)
}

// A row of n numbers of two bytes, arguments or block numbers, of which there are at most eight. By their places and no chunks, since bytes past
// the end count as 0.
fn read_row(s: &[u8], at: usize, n: u64) -> Row
    requires { (at + 2 * n < places) × (n ≤ 8) }
    ensures { row_of result ≡ items (number_from s.now) two_on at n }
{
    let mut items = [0u16; 8];
    // as: the number fits, or u64 and usize have no From; try_from would give an error that cannot happen.
    for (i, x) in items[..n as usize].iter_mut().enumerate() {
        *x = read_fields::u16_at(s, at + 2 * i);
    }
    Row {
        items,
        count: n as u8,
    }
}

// Where the parts behind a code stand, and how many arguments and block numbers there are.
#[derive(Clone, Copy, Debug)]
struct Parts {
    shape: Shape,
    literal: usize,
    count: usize,
    args: u64,
    callee: usize,
    blocks: usize,
    targets: u64,
}

// The parts behind a code. check_blocks::check_operands goes the same way, and cannot do it by this one: it has to refuse a part before it looks
// for the next.
fn parts_at(s: &[u8], at: usize, code: u8) -> Parts
    requires { (at + longest_operands < places) × (count_from (shape_of code) s.now (count_at (shape_of code) s.now at) ≤ 8) }
    ensures { PartsAt s.now at code result }
{
    let shape = read_shapes::shape_of(u64::from(code));
    let literal = read_fields::past_if(shape.dest, at, 2);
    let count = read_fields::past_if(shape.literal, literal, 9);
    let args = read_shapes::count_from(shape, s, count);
    let callee = read_fields::past_if(!shape.literal, count, 1 + 2 * (args as usize));
    let blocks = read_fields::past_if(shape.callee, callee, 2);
    let targets = read_shapes::targets(shape, args);
    Parts {
        shape,
        literal,
        count,
        args,
        callee,
        blocks,
        targets,
    }
}

// What stands behind the code.
fn read_operands(s: &[u8], at: usize, id: u64, code: u8) -> Read
    requires { (at + longest_operands < places) × Readable (operands_from (shape_of code) s.now at id code) }
    ensures { OperandsAgain (shape_of code) s.now at id code result }
{
    let p = parts_at(s, at, code);
    Read {
        instr: Instruction {
            id,
            op: codes::op_of(code),
            dest: NameIx(two_if(p.shape.dest, s, at)),
            literal: read_literal(p.shape.literal, s, p.literal),
            args: read_row(s, p.count + 1, p.args),
            callee: two_if(p.shape.callee, s, p.callee),
            blocks: read_row(s, p.blocks, p.targets),
        },
        next: p.blocks + 2 * (p.targets as usize),
    }
}

// The instruction at a place; w: the bytes of an id.
pub fn read_instr(s: &[u8], at: usize, w: usize) -> Read
    requires { (at + longest_instr < places) × (IdWidth w × Readable (instr_from w s.now at)) }
    ensures { ReadAgain w s.now at result }
{
    let id = read_id(s, at, w);
    let code = read_fields::u8_at(s, at + w);
    read_operands(s, at + w + 1, id, code)
}
