// The machine by steps: one instruction, and as many as may be done. g: what the run rests on; out: what was lent for the events.
// g, cells, out and t go together through steps, step and event_step alone; the functions below take some of them, so a struct would be taken
// apart at each step.
#![tactic(auto)]

ghost use Rattle.std.specs.Prelude.{◌≡◌, Err, true, not, ◌&&◌, ◌≢◌};
ghost use Rattle.codes.specs.Op.{op_of};
ghost use Rattle.engine_quiet.specs.Spot.{Grounded, quiet_op, code_at};
ghost use Rattle.engine_events.specs.Turn.{Ready, Going, Stepped};
ghost use Rattle.engine_steps.specs.Came.{Calm, Came};

use engine_cells::Cells;
use engine_events::Turn;
use engine_quiet::{Ground, Over, Spot};
use record::{NAMES, Op};

// Whether the run waits before an instruction of this operation: events are not told yet, and it has one.
fn waits(op: Op, t: Turn) -> bool
    ensures { result ≡ (not t.tells && not (quiet_op op)) }
{
    !engine_quiet::quiet(op) && !t.tells
}

// The instruction at which the run stands.
fn step(g: &Ground, op: Op, cells: &mut Cells<NAMES>, out: &mut [u8], p: Spot, t: Turn) -> Turn
    requires going { Going g.now p t }
    requires coded { op ≡ op_of (code_at g.now.s.now p.at) }
    ensures { Stepped g.now cells.old cells.new out.old out.new t result ×
        (quiet_op op ≡ true → Calm t result) }
{
    if engine_quiet::quiet(op) {
        return Turn {
            spot: engine_quiet::quiet_step(g, op, cells, p),
            ..t
        };
    }
    engine_events::event_step(g, op, cells, out, p, t)
}

// As many steps as may be taken; where events are not told yet, as far as the first instruction with one.
pub fn steps(g: &Ground, cells: &mut Cells<NAMES>, out: &mut [u8], mut t: Turn) -> Turn
    requires grounded { Grounded g.now }
    requires ready { Ready g.now t }
    requires fit { t.spot ≢ Err Over.Unfit }
    ensures { Came g.now cells.old cells.new out.old out.new t result }
{
    // A copy of its own, whose fields need not be read again after each write to the cells.
    let own = *g;
    let g = &own;
    // The run itself says when it is over, so nothing is counted up to. `while let` was tried: the borrow checker does not cover it here.
    loop {
        let Ok(p) = t.spot else {
            return t;
        };
        if t.more == 0 {
            return t;
        }
        let op = codes::op_of(read_fields::u8_at(g.s, p.at + g.w));
        if waits(op, t) {
            return t;
        }
        t = Turn {
            more: t.more - 1,
            ..step(g, op, cells, out, p, t)
        };
    }
}
