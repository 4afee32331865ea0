// The second pass over a record that was read without a fault: the first instruction that breaks the rule of its code, by the types of the
// names. All reads are total, 0 past the end, so the pass asks nothing of the bytes.
#![tactic(auto)]

ghost use Rattle.std.specs.Prelude.{◌≡◌, ◌+◌, ◌*◌, ◌<◌, ◌≤◌, IfOk};
ghost use Rattle.read_fields.specs.Places.{places};
ghost use Rattle.read_layout.specs.Bounds.{widest_id, instr_reach, block_reach};
ghost use Rattle.check_types.specs.Passes.{body_verdict, block_verdict, blocks_verdict};

use read_fields::{Next, fault};
use record::Refusal;

// The bytes of a record, the type byte of each name, and the bytes of an id.
#[derive(Clone, Copy, Debug)]
pub struct Typed<'a> {
    pub bytes: &'a [u8],
    pub types: &'a [u8],
    pub width: usize,
    ghost narrow: { width ≤ widest_id },
}

impl<'a> Typed<'a> {
    // The n instructions from a place on: the place behind them, or the first that breaks its rule.
    pub fn body_at(&self, n: usize, at: usize) -> Next
        requires { at + instr_reach * n < places }
        ensures { (result ≡ body_verdict self.now.width self.now.types.now self.now.bytes.now at n) × IfOk result (λ q. q ≤ at + instr_reach * n) }
    {
        let mut p = at;
        for _ in 0..n {
            if !check_rules::typed_at(self.bytes, self.types, self.width, p) {
                return Err(fault(Refusal::Types, p));
            }
            p = read_layout::instr_end(self.bytes, self.width, p);
        }
        Ok(p)
    }

    // The block at a place.
    pub fn block_at(&self, at: usize) -> Next
        requires { at + block_reach < places }
        ensures { (result ≡ block_verdict self.now.width self.now.types.now self.now.bytes.now at) × IfOk result (λ q. q ≤ at + block_reach) }
    {
        let (n, first) = read_layout::block_head(self.bytes, at);
        self.body_at(n, first)
    }

    // The n blocks from a place on.
    pub fn blocks_at(&self, n: usize, at: usize) -> Next
        requires { at + block_reach * n < places }
        ensures { result ≡ blocks_verdict self.now.width self.now.types.now self.now.bytes.now at n }
    {
        let mut p = at;
        for _ in 0..n {
            p = self.block_at(p)?;
        }
        Ok(p)
    }
}
