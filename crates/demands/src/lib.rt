// Rewrite with the three demands as its promise, and figures with document 02's: where the contracts of the code and the theorems about
// the definitions meet, with nothing assumed of what is lent. No program calls these; they stand here to be read and proved.
#![tactic(auto)]

ghost use Rattle.pairing.specs.Contract.{DemandsMet, FiguresMet};

use numbering::{FiguresError, RewriteError, Totals};

// What rewrite does with every input and every output.
pub fn rewrite_as_demanded(input: &[u8], output: &mut [u8]) -> Result<Totals, RewriteError>
    ensures { DemandsMet input.now output.old output.new result }
{
    rewrite::rewrite(input, output)
}

// What figures does with every input and all places.
pub fn figures_as_promised(input: &[u8], each: &mut [u16]) -> Result<Totals, FiguresError>
    ensures { FiguresMet input.now each.old each.new result }
{
    figures::figures(input, each)
}
