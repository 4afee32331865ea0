// The rewriting of a block and of all blocks: instructions of an accepted record read again, numbered and written.
// Writing past the end does nothing, so that over an empty output the same functions learn the size and K.
#![tactic(auto)]

ghost use Rattle.std.specs.Prelude.{◌≡◌, List, [], ◌∷◌, ◌++◌, ◌+◌, ◌^◌, ◌<◌, ◌≤◌, length};
ghost use Rattle.record.specs.Record.{Instr, Block, type_in};
ghost use Rattle.record.specs.Reader.{num_at};
ghost use Rattle.record.specs.Write.{be};
ghost use Rattle.record.specs.View.{instr_of};
ghost use Rattle.record.specs.Sizes.{longest_instr, longest_lines, places_end};
ghost use Rattle.write_bytes.specs.Put.{put, Wrote, IdWidth};
ghost use Rattle.lvn_state.specs.View.{state_of, saves_of};
ghost use Rattle.numbering.specs.Number.{save_before};
ghost use Rattle.lvn_blocks.specs.Block.{body_bytes, saved_by, Asks, Turned, Done};
ghost use Rattle.lvn_blocks.specs.Blocks.{BlocksAsk, BlockDone, BlocksDone};

use arith::One;
use lvn_instr::Emitted;
use lvn_state::LvnState;
use lvn_values::NUMBERS;
use read_layout::{Layout, Spot};
use record::{Instruction, NAMES, NameIx};

// An accepted record: its bytes, what its head says, and the types of its names.
#[derive(Clone, Copy, PartialEq, Eq, Debug)]
pub struct Source<'a> {
    pub reads: &'a [u8],
    pub layout: Layout,
    pub types: &'a [u8],
}

// The state of a block of any record.
pub type BlockState = LvnState<NAMES, NUMBERS>;

// ---- one instruction

// The save `made = id x` that is owed before an instruction whose dest is x, under its id.
pub fn save_instr(i: &Instruction, made: NameIx) -> Instruction
    ensures { (instr_of result ≡ save_before (instr_of i.now) made) × (result.id ≡ i.now.id) }
{
    lvn_instr::one_instr(i.id, made, One::Id, i.dest)
}

// That an id fits its width is asked by each writer of one: the width is the record's, and an instruction by itself has none.

// The save that is owed before an instruction, where one is; the place behind it.
pub fn put_save(out: &mut [u8], at: usize, w: usize, e: &Emitted) -> usize
    requires { (at < places_end) × (IdWidth w × (e.now.instr.id < 256 ^ w)) }
    ensures { Wrote out.old out.new at result (body_bytes w (saves_of e.now.made (instr_of e.now.instr))) ×
        (result ≤ at + longest_instr) }
{
    match e.made {
        Some(made) => write_instrs::put_instr(out, at, w, save_instr(&e.instr, made)),
        None => at,
    }
}

// That save, and the instruction; the place behind them.
pub fn put_lines(out: &mut [u8], at: usize, w: usize, e: &Emitted) -> usize
    requires { (at + longest_instr < places_end) ×
        (IdWidth w × (e.now.instr.id < 256 ^ w)) }
    ensures { Wrote out.old out.new at result
        (body_bytes w (saves_of e.now.made (instr_of e.now.instr) ++ (instr_of e.now.instr ∷ []))) ×
        (result ≤ at + longest_lines) }
{
    let p = put_save(out, at, w, e);
    write_instrs::put_instr(out, p, w, e.instr)
}

// What the save of K = k saves, the dest of the instruction, at the place k of a table, where a save is owed.
pub fn note_save(names: &mut [u16], k: u16, e: &Emitted)
    ensures { names.new ≡ put names.old k (saved_by (saves_of e.now.made (instr_of e.now.instr))) }
{
    if e.made.is_some() {
        read_layout::store(names, usize::from(k), e.instr.dest.0);
    }
}

// One instruction of a block; names: what each K saved. names and out are a parameter each, here and in rewrite: a struct of the two lent slices
// was tried. What is lent it proves, but who makes it cannot show what then stands in the slices.
pub fn turn_once<const M: usize, const N: usize>(
    st: &mut LvnState<M, N>,
    src: &Source,
    names: &mut [u16],
    out: &mut [u8],
    at: Spot,
) -> Spot
    requires { Asks M N src.now.layout src.now.reads.now (state_of st.old) at 1 }
    ensures { Turned src.now.layout src.now.reads.now (type_in src.now.types.now) at result
        (state_of st.old) (state_of st.new) names.old names.new out.old out.new }
{
    let k = st.made();
    let g = read_instrs::read_instr(src.reads, at.p, src.layout.width);
    let e = lvn_instr::instr_lvn(st, src.layout.names, src.types, g.instr);
    note_save(names, k, &e);
    let q = put_lines(out, at.q, src.layout.width, &e);
    Spot { p: g.next, q }
}

// The instructions of a block, so many, from a place on.
pub fn body_lvn<const M: usize, const N: usize>(
    st: &mut LvnState<M, N>,
    src: &Source,
    names: &mut [u16],
    out: &mut [u8],
    from: Spot,
    count: usize,
) -> Spot
    requires { Asks M N src.now.layout src.now.reads.now (state_of st.old) from count }
    ensures { Done src.now.layout src.now.reads.now (type_in src.now.types.now) from result
        (state_of st.old) (state_of st.new) count names.old names.new out.old out.new }
{
    let mut at = from;
    for _ in 0..count {
        at = turn_once(st, src, names, out, at);
    }
    at
}

// ---- blocks

// The head of a block: how many instructions it has, and how many of them are saves.
pub fn put_block_head(out: &mut [u8], at: usize, n: u16, saves: u16)
    requires { at < places_end }
    ensures { out.new ≡ put out.old at (be 2 n ++ be 2 saves) }
{
    write_bytes::put_u16(out, at, n);
    write_bytes::put_u16(out, at + 2, saves);
}

// K, which runs on from block to block, and the saves of all blocks so far. For a whole record both begin at 0 and stay equal; document 01 asks
// for both, and the contract of block_lvn holds for any two.
#[derive(Clone, Copy, PartialEq, Eq, Debug)]
pub struct SaveCount {
    pub k: u16,
    pub total: u16,
}

// The place behind a block, and the count there.
#[derive(Clone, Copy, PartialEq, Eq, Debug)]
pub struct Behind {
    pub at: Spot,
    pub count: SaveCount,
}

// One block, the count lent to it and advanced: its instructions, then, before them, its head; the place behind it.
pub fn block_lvn(
    count: &mut SaveCount,
    st: &mut BlockState,
    src: &Source,
    names: &mut [u16],
    out: &mut [u8],
    at: Spot,
) -> Spot
    requires { BlocksAsk src.now.layout src.now.reads.now at count.old 1 }
    ensures { BlockDone src.now.layout src.now.reads.now (type_in src.now.types.now) at count.old result count.new
        names.old names.new out.old out.new }
{
    // As a u16, which its head has again; read_layout::block_head would give it as a usize.
    let n = read_fields::u16_at(src.reads, at.p);
    let k = count.k;
    st.restart(src.layout.args, k);
    let from = Spot {
        p: at.p + 4,
        q: at.q + 4,
    };
    let end = body_lvn(st, src, names, out, from, usize::from(n));
    let made = st.made();
    let saves = made - k;
    put_block_head(out, at.q, n + saves, saves);
    count.k = made;
    count.total += saves;
    end
}

// How many instructions are written of the block at p, which has so many saves, at the place i of a table.
pub fn note_figure(s: &[u8], each: &mut [u16], i: usize, p: usize, saves: u16)
    requires { (p < places_end) × (num_at s.now p 2 + saves < 65536) }
    ensures { each.new ≡ put each.old i ((num_at s.now p 2 + saves) ∷ []) }
{
    read_layout::store(each, i, read_fields::u16_at(s, p) + saves);
}

// All blocks, from a place on; each: a table for how many instructions are written of each block.
pub fn blocks_lvn(
    st: &mut BlockState,
    src: &Source,
    names: &mut [u16],
    each: &mut [u16],
    out: &mut [u8],
    from: Spot,
) -> Behind
    requires { (src.now.layout.names ≡ length src.now.types.now) ×
        BlocksAsk src.now.layout src.now.reads.now from (record { k = 0; total = 0 }) src.now.layout.blocks }
    ensures { (bs : List (Block Instr)) →
        BlocksDone src.now.layout.width (record { args = src.now.layout.args; types = src.now.types.now; blocks = bs })
        src.now.reads.now from result src.now.layout.blocks names.old names.new each.old each.new out.old out.new }
{
    let mut count = SaveCount { k: 0, total: 0 };
    let mut at = from;
    for i in 0..src.layout.blocks {
        let before = count.total;
        let next = block_lvn(&mut count, st, src, names, out, at);
        note_figure(src.reads, each, i, at.p, count.total - before);
        at = next;
    }
    Behind { at, count }
}
