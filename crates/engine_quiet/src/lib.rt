// Where a run stands in a record, and the instructions without an event: const, the operators, jmp, br and nop.
// as: usize has no From of u32; try_from would give an error that cannot happen.
#![tactic(auto)]

ghost use Rattle.std.specs.Prelude.{◌≡◌, true, ◌+◌, ◌-◌, ◌<◌, ◌≤◌, length};
ghost use Rattle.record.specs.Decode.{id_width, instr_end};
ghost use Rattle.running.specs.Steps.{first_of, land};
ghost use Rattle.codes.specs.Op.{op_of};
ghost use Rattle.engine_quiet.specs.Spot.{body_at, blocks_of, Laid, Before, Facing, quiet_op, code_at, Landed, Behind, Moved};

use engine_cells::Cells;
use engine_pure::Stop;
use record::{NAMES, Op};

// What a run rests on: the record and the bytes of an id in it, the types of the names, the places of the blocks, and the answers.
// Grounded, that the blocks lie in the record and their instructions pass, is asked of it where it is needed. It was tried as a ghost field,
// and got no proof: a ghost field has to be a proposition, and what a record's Passing says, with the places in it, is none.
#[derive(Clone, Copy)]
pub struct Ground<'a> {
    pub s: &'a [u8],
    pub w: usize,
    pub types: &'a [u8],
    pub starts: &'a [u32],
    pub list: &'a [u8],
}

// How a run is over: at the end, by ret, halt or unset, or by the division with this id; or an answer did not fit.
// No Ending of running: that has a limit, for which a run still stands at a spot, and has no case for an answer that does not fit, which
// is an error there.
#[derive(Clone, Copy, PartialEq, Eq, Debug)]
pub enum Over {
    End,
    Ret,
    Halt,
    Unset,
    Division(u64),
    Unfit,
}

// Before an instruction: in which block, at which place of the record, and with how many instructions of the block left, this one among them.
// A run stands at a spot, or it is over.
#[derive(Clone, Copy, PartialEq, Eq, Debug)]
pub struct Spot {
    pub block: usize,
    pub at: usize,
    pub left: usize,
}

// ---- moving on
// At the first instruction of block b, or of the next that has one; past the last the run is over.
pub fn land(g: &Ground, b: usize) -> Result<Spot, Over>
    requires { Laid g.now }
    ensures { Landed g.now (land (blocks_of g.now) b) result }
{
    // By the number of the block, of which what is handed back speaks: enumerate and skip were tried, and are no shorter.
    for c in b..g.starts.len() {
        let (left, at) = read_layout::block_head(g.s, g.starts[c] as usize);
        if left > 0 {
            return Ok(Spot { block: c, at, left });
        }
    }
    Err(Over::End)
}

// At the next instruction of the block, which stands at a place; behind the last one, at the next block.
pub fn onward(g: &Ground, next: usize, p: Spot) -> Result<Spot, Over>
    requires laid { Laid g.now }
    requires stands { Before g.now p }
    requires next { next ≡ instr_end (id_width g.now.s.now) g.now.s.now p.at }
    ensures { Landed g.now
        (first_of p.block (body_at g.now.s.now next (p.left - 1)) (land (blocks_of g.now) (p.block + 1))) result }
{
    if p.left > 1 {
        return Ok(Spot {
            at: next,
            left: p.left - 1,
            ..p
        });
    }
    land(g, p.block + 1)
}

// ---- one instruction
// Facing g p, and op ≡ op_of (code_at ..): a value that kept them would be made for each instruction, and taken apart again wherever a run
// moves from p to the next place, of which the contracts speak.

// The place behind the code of the instruction at which the run stands.
fn behind_code(g: &Ground, p: Spot) -> usize
    requires { Facing g.now p }
    ensures place { result ≡ p.at + g.now.w + 1 }
    ensures inside { result ≤ length g.now.s.now }
{
    p.at + g.w + 1
}

// Where the run is behind an operation, by what that answered; next: the place of the next instruction. A division that stops is told by its
// id, which Stop has not: so no From makes an Over of it. Inlined, since a step calls it from two places.
#[inline(always)]
#[tactic(auto, unfolding(crate::specs::Spot::Behind))]
fn behind_operation(
    g: &Ground,
    worked: Result<(), Stop>,
    next: usize,
    p: Spot,
) -> Result<Spot, Over>
    requires facing { Facing g.now p }
    requires next { next ≡ instr_end (id_width g.now.s.now) g.now.s.now p.at }
    ensures { Behind g.now p worked result }
{
    match worked {
        Ok(()) => onward(g, next, p),
        Err(Stop::Division) => Err(Over::Division(read_instrs::read_id(g.s, p.at, g.w))),
        Err(Stop::Unset) => Err(Over::Unset),
    }
}

// br
fn branch(g: &Ground, cells: &Cells<NAMES>, p: Spot) -> Result<Spot, Over>
    requires facing { Facing g.now p }
    requires coded { Op.Br ≡ op_of (code_at g.now.s.now p.at) }
    ensures { Moved g.now cells.now cells.now p result }
{
    let row = behind_code(g, p);
    match cells.bool(read_fields::be::<2>(g.s, row + 1)) {
        Some(true) => land(g, usize::from(read_fields::u16_at(g.s, row + 3))),
        Some(false) => land(g, usize::from(read_fields::u16_at(g.s, row + 5))),
        None => Err(Over::Unset),
    }
}

// Whether an operation has no event.
#[tactic(auto, unfolding(crate::specs::Spot::quiet_op))]
pub fn quiet(op: Op) -> bool
    ensures { result ≡ quiet_op op }
{
    !matches!(op, Op::New(_) | Op::Effect(_) | Op::Ret)
}

// The instruction at which the run stands, which has no event.
pub fn quiet_step(g: &Ground, op: Op, cells: &mut Cells<NAMES>, p: Spot) -> Result<Spot, Over>
    requires facing { Facing g.now p }
    requires coded { op ≡ op_of (code_at g.now.s.now p.at) }
    requires quiet { quiet_op op ≡ true }
    ensures { Moved g.now cells.old cells.new p result }
{
    let at = behind_code(g, p);
    match op {
        Op::Const => {
            engine_pure::constant(g.s, at, g.types, cells);
            onward(g, at + 11, p)
        }
        Op::One(o) => behind_operation(g, engine_pure::operate_one(g.s, at, o, cells), at + 5, p),
        Op::Two(o) => behind_operation(g, engine_pure::operate_two(g.s, at, o, cells), at + 7, p),
        Op::Jmp => land(g, usize::from(read_fields::u16_at(g.s, at + 1))),
        Op::Br => branch(g, cells, p),
        // nop: what else has no event
        _ => onward(g, at + 1, p),
    }
}
