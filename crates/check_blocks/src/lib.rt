// The instructions and blocks of a record: each function is the definition's reader with its value forgotten.
#![tactic(auto)]

ghost use Rattle.std.specs.Prelude.{◌≡◌, true, false, ℕ, eqb, Ok, []};
ghost use Rattle.record.specs.Record.{nm, no_lit};
ghost use Rattle.record.specs.Reader.{field, times, if_there};
ghost use Rattle.record.specs.Tests.{any, saves_test};
ghost use Rattle.record.specs.Read.{name_index, literal, arguments, operands, instr, block};
ghost use Rattle.record.specs.Answer.{verdict};
ghost use Rattle.read_fields.specs.Answer.{res};

use read_fields::{Next, Num, Test, limited};
use record::{CHAR, Limits, Refusal, Shape};

// What a record has: the bytes of an id, how many names and how many blocks.
#[derive(Clone, Copy, PartialEq, Eq, Debug)]
pub struct Counts {
    pub width: usize,
    pub names: u64,
    pub blocks: u64,
}

// ---- the parts of an instruction
// A literal: its kind, then its bits.
pub fn check_literal(s: &[u8], at: usize) -> Next
    ensures { result ≡ verdict (literal s.now at) }
{
    let (kind, p) = limited::<1>(s, at, u64::from(CHAR))?;
    read_fields::verdict(read_shapes::bits_at(s, p, kind))
}

// An argument count and that many names of n.
pub fn check_arguments(s: &[u8], at: usize, sh: Shape, n: u64) -> Next
    ensures { result ≡ verdict (arguments n sh s.now at) }
{
    let (count, p) = read_shapes::count_at(s, at, sh)?;
    read_fields::indexes_at(s, p, count, n)
}

// A part, where the shape has it: `there` is a field of the shape, which says yes or no.
pub fn if_there<F: FnOnce(usize) -> Next>(there: bool, at: usize, part: F) -> Next
    requires { F.IsAlwaysCallable part }
    ensures yes { there ≡ true → F.post part at result }
    ensures no { there ≡ false → result ≡ Ok at }
{
    if there { part(at) } else { Ok(at) }
}

// Each of the four says by the definition's `if_there` what it answers; `if_there` above is over any closure, and says what that ensures.

// A dest, where the shape has one.
pub fn dest_if(there: bool, s: &[u8], at: usize, n: u64) -> Next
    ensures { result ≡ verdict (if_there there (nm 0) (name_index n) s.now at) }
{
    if_there(there, at, move |p| read_fields::index_at(s, p, n))
}

// A literal, where the shape has one.
pub fn literal_if(there: bool, s: &[u8], at: usize) -> Next
    ensures { result ≡ verdict (if_there there no_lit literal s.now at) }
{
    if_there(there, at, |p| check_literal(s, p))
}

// Arguments, where the shape has them.
pub fn arguments_if(there: bool, s: &[u8], at: usize, sh: Shape, n: u64) -> Next
    ensures { result ≡ verdict (if_there there [] (arguments n sh) s.now at) }
{
    if_there(there, at, |p| check_arguments(s, p, sh, n))
}

// A callee, where the shape has one: any number.
pub fn callee_if(there: bool, s: &[u8], at: usize) -> Next
    ensures { result ≡ verdict (if_there there 0 (field 2 any) s.now at) }
{
    if_there(there, at, |p| read_fields::skip_at(s, p, 2))
}

// ---- instructions
// s and at come first in each function, as in those of read_fields; a struct of s and of would serve five, and be taken apart by the others.

// What stands behind the code of an instruction of this shape.
// The verdict does not depend on the id and the code that the instruction is given.
pub fn check_operands(s: &[u8], at: usize, sh: Shape, of: Counts) -> Next
    ensures { (id code : ℕ) → result ≡ verdict (operands of.names of.blocks sh id code s.now at) }
{
    let literal = dest_if(sh.dest, s, at, of.names)?;
    let args = literal_if(sh.literal, s, literal)?;
    let count = read_shapes::count_from(sh, s, args);
    let callee = arguments_if(!sh.literal, s, args, sh, of.names)?;
    let blocks = callee_if(sh.callee, s, callee)?;
    read_fields::indexes_at(s, blocks, read_shapes::targets(sh, count), of.blocks)
}

// An instruction, in the last place of its block or before it.
pub fn check_instr(s: &[u8], at: usize, of: Counts, last: bool) -> Next
    ensures { result ≡ verdict (instr of.width of.names of.blocks last s.now at) }
{
    let p = read_fields::skip_at(s, at, of.width)?;
    let (code, q) = read_shapes::code_at(s, p, last)?;
    check_operands(s, q, read_shapes::shape_of(code), of)
}

// The instructions of a block. The last is the one with none left behind it.
pub fn check_instrs(s: &[u8], at: usize, count: u64, of: Counts) -> Next
    ensures { result ≡ verdict (times count (λ left. instr of.width of.names of.blocks (eqb left 0)) s.now at) }
{
    let mut p = at;
    for left in (0..count).rev() {
        p = check_instr(s, p, of, left == 0)?;
    }
    Ok(p)
}

// ---- blocks
// Saves are 0 where no made names may stand.
#[tactic(auto, unfolding(record::specs::Tests::saves_test))]
pub fn saves_test(made: bool, n: u64) -> Test
    ensures { result ≡ saves_test made n }
{
    read_fields::need(made || n == 0, Refusal::Limit)
}

// A block's saves.
pub fn saves_at(s: &[u8], at: usize, made: bool) -> Num
    ensures { res result ≡ field 2 (saves_test made) s.now at }
{
    read_fields::field_tested::<2, _>(s, at, |n| saves_test(made, n))
}

// A block: how many instructions, saves, the instructions.
pub fn check_block(s: &[u8], at: usize, lim: Limits, of: Counts) -> Next
    ensures { result ≡ verdict (block lim of.width of.names of.blocks s.now at) }
{
    let (count, p) = limited::<2>(s, at, lim.body)?;
    let (_, q) = saves_at(s, p, lim.made)?;
    check_instrs(s, q, count, of)
}

// All the blocks.
pub fn check_blocks(s: &[u8], at: usize, lim: Limits, of: Counts) -> Next
    ensures { result ≡ verdict (times of.blocks (λ left. block lim of.width of.names of.blocks) s.now at) }
{
    let mut p = at;
    for _ in 0..of.blocks {
        p = check_block(s, p, lim, of)?;
    }
    Ok(p)
}
