// Figures: what rewrite would need and write, worked out from the input alone. The blocks are numbered once, as rewrite numbers them, and
// nothing is written but how many instructions each has.
#![tactic(auto)]

ghost use Rattle.std.specs.Prelude.{Ok, ◌≡◌, ◌≤◌, length};
ghost use Rattle.record.specs.Reader.{num_at};
ghost use Rattle.record.specs.Answer.{checked};
ghost use Rattle.numbering.specs.Figures.{figures, figures_leaves};
ghost use Rattle.rewrite.specs.Parts.{Ready, Typed};
ghost use Rattle.figures.specs.Answers.{FiguredAs};

use lvn_blocks::BlockState;
use numbering::{FiguresError, Totals};
use rewrite::Opened;

// Of an accepted record, with a place for each block. names: a table for what each K saves.
pub fn figures_noting(src: &Opened, names: &mut [u16], each: &mut [u16]) -> Totals
    requires { Ready src.now names.old × (num_at src.now.reads.now src.now.end 2 ≤ length each.old) }
    ensures { FiguredAs src.now.reads.now each.old (Ok result) each.new }
{
    let mut st = BlockState::new();
    rewrite::measure(&mut st, src, names, each)
}

// figures_noting over a table that is long enough.
pub fn figures_typed(src: &Opened, each: &mut [u16]) -> Totals
    requires { Typed src.now × (num_at src.now.reads.now src.now.end 2 ≤ length each.old) }
    ensures { FiguredAs src.now.reads.now each.old (Ok result) each.new }
{
    let noting = |names: &mut [u16], e: &mut [u16]|
        requires { Ready src.now names.old × (num_at src.now.reads.now src.now.end 2 ≤ length e.old) }
        ensures { FiguredAs src.entry.now.reads.now e.old (Ok result) e.new }
    { figures_noting(src, names, e) };
    rewrite::with_table(u64::from(src.blocks()), each, noting)
}

// Of a record laid open: whether each block has a place; then the rest. One without blocks is its own rewriting.
fn figures_opened(src: &Opened, each: &mut [u16]) -> Result<Totals, FiguresError>
    requires { Typed src.now }
    ensures { FiguredAs src.now.reads.now each.old result each.new }
{
    let blocks = usize::from(src.blocks());
    if each.len() < blocks {
        return Err(FiguresError::TooFew);
    }
    if blocks == 0 {
        return Ok(Totals {
            bytes: src.end + 2,
            saves: 0,
        });
    }
    Ok(figures_typed(src, each))
}

// Of an accepted record.
pub fn figures_accepted(s: &[u8], each: &mut [u16]) -> Result<Totals, FiguresError>
    requires { checked s.now ≡ Ok tt }
    ensures { (result ≡ figures s.now each.old) ×
        (each.new ≡ figures_leaves s.now each.old) }
{
    rewrite::with_opened(s, each, figures_opened)
}

// The figures of a record: the bytes and saves of its rewriting, and at the first places the instructions of its blocks; or check's
// refusal, or that there are fewer places than blocks, and no place touched.
pub fn figures(input: &[u8], each: &mut [u16]) -> Result<Totals, FiguresError>
    ensures { (result ≡ figures input.now each.old) ×
        (each.new ≡ figures_leaves input.now each.old) }
{
    checker::check(input)?;
    figures_accepted(input, each)
}
