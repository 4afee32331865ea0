// Check: a record is read, each field tested in the order read; then each instruction's types.
#![tactic(auto)]

ghost use Rattle.std.specs.Prelude.{◌≡◌, ◌≤◌};
ghost use Rattle.record.specs.Record.{limits};
ghost use Rattle.record.specs.Read.{read};
ghost use Rattle.record.specs.Answer.{verdict, checked};
ghost use Rattle.record.specs.Decode.{names_count};
ghost use Rattle.checker.specs.Pass.{typed_verdict};

use check_types::Typed;
use record::{Fault, Limits, NAMES};

// The first pass: every field in the order read, with its tests.
pub fn read(input: &[u8]) -> Result<usize, Fault>
    ensures { result ≡ verdict (read limits input.now 0) }
{
    let limits = Limits {
        // as: u64 and usize have no From; try_from would give an error that cannot happen.
        names: NAMES as u64,
        text: 32,
        body: 256,
        made: false,
    };
    check_record::read_record(input, limits)
}

// The second pass: the table of the names' types, then the blocks.
#[tactic(auto, using(crate::proofs::Laws::typed_is))]
pub fn typed(s: &[u8]) -> Result<usize, Fault>
    ensures { names_count s.now ≤ NAMES → result ≡ typed_verdict s.now }
{
    let mut types = [0u8; NAMES];
    // The names' places are not asked.
    let head = read_layout::layout_of(s, &mut types, &mut []);
    let record = Typed {
        bytes: s,
        types: &types,
        width: head.width,
    };
    record.blocks_at(head.blocks, head.end + 2)
}

// Whether the bytes are a record of a function: accepted, or the reason and offset of the first fault.
#[tactic(auto, using(crate::proofs::Laws::checked_refused))]
pub fn check(input: &[u8]) -> Result<(), Fault>
    ensures { result ≡ checked input.now }
{
    read(input)?;
    typed(input)?;
    Ok(())
}
