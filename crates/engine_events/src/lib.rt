// The instructions with an event: new values, effects and ret. The event is told before the answer is looked at.
// g: what the run rests on; out: what was lent for the events.
#![tactic(auto)]

ghost use Rattle.std.specs.Prelude.{◌≡◌, ◌≢◌, Err, true, false, cond, [], ◌∷◌, ◌+◌, ◌-◌, ◌*◌, ◌<◌, ◌≤◌, length};
ghost use Rattle.std.proofs.Math.Option.{none};
ghost use Rattle.record.specs.Record.{type_in};
ghost use Rattle.record.specs.Reader.{num_at};
ghost use Rattle.record.specs.Decode.{index_from};
ghost use Rattle.machine.specs.Machine.{read_all};
ghost use Rattle.read_fields.specs.Places.{places};
ghost use Rattle.engine_cells.specs.Cells.{store_in};
ghost use Rattle.engine_house.specs.Reads.{answer_of, IsSet};
ghost use Rattle.codes.specs.Op.{op_of};
ghost use Rattle.engine_quiet.specs.Spot.{quiet_op, code_at};
ghost use Rattle.engine_events.specs.Turn.{most_event, far, args_at, Going, Loud, EventPut, EventAs, Stepped};
ghost use Rattle.engine_events.specs.Replies.{dest_op, callee_op, fits_reply, given, Telling, Answered};

use engine_cells::Cells;
use engine_house::Answer;
use engine_quiet::{Ground, Over, Spot};
use record::{NAMES, Op};

// The codes of the calls, with a dest and without one, which alone have a callee.
const VALUE_CALL: u8 = 20;

const EFFECT_CALL: u8 = 67;

// A run: where it stands or how it is over, how many steps it may still take, the place of the next answer and how many are left, the place
// behind the events, and whether events are told or the run waits before the first. What is left of the list as a slice would say where the
// next answer is, but not how many are left, by which the events that can still come are bounded.
#[derive(Clone, Copy, PartialEq, Eq, Debug)]
pub struct Turn {
    pub spot: Result<Spot, Over>,
    pub more: u64,
    pub answer: usize,
    pub answers: usize,
    pub event: usize,
    pub tells: bool,
}

impl Turn {
    // Over, with the events up to a place.
    fn ended(self, stop: Over, event: usize) -> Turn
        ensures { result ≡ record {
          spot = Err stop;
          more = self.more;
          answer = self.answer;
          answers = self.answers;
          event = event;
          tells = self.tells;
        } }
    {
        Turn {
            spot: Err(stop),
            event,
            ..self
        }
    }

    // With the next answer taken, behind which the one after it stands.
    fn taken(self, answer: usize) -> Turn
        requires { 0 < self.answers }
        ensures { result ≡ record {
          spot = self.spot;
          more = self.more;
          answer = answer;
          answers = self.answers - 1;
          event = self.event;
          tells = self.tells;
        } }
    {
        Turn {
            answer,
            answers: self.answers - 1,
            ..self
        }
    }
}

// ---- events
// Whether an operation with an event has a dest.
#[tactic(auto, unfolding(crate::specs::Replies::dest_op))]
fn has_dest(op: Op) -> bool
    ensures { result ≡ dest_op op }
{
    matches!(op, Op::New(_))
}

// The callee of an instruction whose arguments end there; 0 where it has none.
#[tactic(auto, unfolding(crate::specs::Replies::callee_op))]
fn callee_at(s: &[u8], op: Op, end: usize) -> u16
    requires { end + 1 < places }
    ensures { result ≡ cond (callee_op op) (num_at s.now end 2) 0 }
{
    if matches!(op, Op::New(VALUE_CALL) | Op::Effect(EFFECT_CALL)) {
        return read_fields::u16_at(s, end);
    }
    0
}

// The event of the instruction at a place, whose argument count stands at another; each argument is set.
fn put_event(
    g: &Ground,
    op: Op,
    at: usize,
    row: usize,
    cells: &Cells<NAMES>,
    out: &mut [u8],
    to: usize,
)
    requires telling { Telling g.now op at row to }
    requires set { read_all (store_in cells.now) (args_at g.now.s.now at) ≢ none }
    ensures { EventPut g.now.s.now at out.old out.new to
        (read_all (store_in cells.now) (args_at g.now.s.now at)) }
{
    let w = g.w;
    let n = read_fields::u8_at(g.s, row);
    write_bytes::put_word(out, to, w, read_instrs::read_id(g.s, at, w));
    write_bytes::put_u8(out, to + w, u8::from(op));
    write_bytes::put_u16(
        out,
        to + w + 1,
        callee_at(g.s, op, row + 1 + 2 * usize::from(n)),
    );
    write_bytes::put_u8(out, to + w + 3, n);
    cells.put_row(g.s, row + 1, n, out, to + w + 4);
}

// Its event, as far as the output goes, and the place behind it; nothing where an argument is not set.
fn tell_event(
    g: &Ground,
    op: Op,
    at: usize,
    row: usize,
    cells: &Cells<NAMES>,
    out: &mut [u8],
    to: usize,
) -> Option<usize>
    requires { Telling g.now op at row to }
    ensures { EventAs g.now.s.now at out.old out.new to result
        (read_all (store_in cells.now) (args_at g.now.s.now at)) }
{
    let n = cells.row_size(g.s, row + 1, read_fields::u8_at(g.s, row))?;
    if to < out.len() {
        put_event(g, op, at, row, cells, out, to);
    }
    Some(to + g.w + 4 + n)
}

// ---- answers
// An answer to the instruction whose operands stand at a place: whether it fits, and then dest has its value.
fn takes(g: &Ground, op: Op, at: usize, answer: Answer, cells: &mut Cells<NAMES>) -> bool
    requires operands { at + 1 < places }
    requires dest { dest_op op ≡ true → num_at g.now.s.now at 2 < 256 }
    requires set { IsSet answer }
    ensures { (result ≡ fits_reply (dest_op op) (type_in g.now.types.now (index_from g.now.s.now at)) (answer_of answer ∷ [])) ×
        (result ≡ true → store_in cells.new ≡
        given (dest_op op) (answer_of answer) (store_in cells.old) (index_from g.now.s.now at)) }
{
    match answer {
        Answer::GoOn => !has_dest(op),
        Answer::Halt => true,
        Answer::Value(c) => {
            if !has_dest(op) {
                return false;
            }
            let d = read_fields::be::<2>(g.s, at);
            if !engine_house::has_type(read_fields::type_of(g.types, d), c) {
                return false;
            }
            cells.set_cell(d, c);
            true
        }
    }
}

// The world's answer to the event of the instruction at which the run stands; event: the place behind that.
fn answered(g: &Ground, op: Op, cells: &mut Cells<NAMES>, event: usize, p: Spot, t: Turn) -> Turn
    requires going { Going g.now p t }
    requires coded { op ≡ op_of (code_at g.now.s.now p.at) }
    requires loud { Loud g.now.s.now p.at }
    requires room { event + most_event * t.answers ≤ far }
    ensures { Answered g.now cells.old cells.new event p t result }
{
    if t.answers == 0 {
        return t.ended(Over::Halt, event);
    }
    let at = p.at;
    let answer = engine_house::answer_again(g.list, t.answer);
    let u = t.taken(answer.end(t.answer));
    if answer == Answer::Halt {
        return u.ended(Over::Halt, event);
    }
    if !takes(g, op, at + g.w + 1, answer, cells) {
        return u.ended(Over::Unfit, event);
    }
    Turn {
        spot: engine_quiet::onward(g, read_layout::instr_end(g.s, g.w, at), p),
        event,
        ..u
    }
}

// ---- one instruction
// Going g p t, as Facing of engine_quiet: a value that kept it would be made for each instruction and taken apart again.

// The instruction at which the run stands, which has an event.
pub fn event_step(
    g: &Ground,
    op: Op,
    cells: &mut Cells<NAMES>,
    out: &mut [u8],
    p: Spot,
    t: Turn,
) -> Turn
    requires going { Going g.now p t }
    requires coded { op ≡ op_of (code_at g.now.s.now p.at) }
    requires loud { quiet_op op ≡ false }
    ensures { Stepped g.now cells.old cells.new out.old out.new t result }
{
    let row = read_fields::past_if(has_dest(op), p.at + g.w + 1, 2);
    match tell_event(g, op, p.at, row, cells, out, t.event) {
        Some(event) => {
            if op == Op::Ret {
                return t.ended(Over::Ret, event);
            }
            answered(g, op, cells, event, p, t)
        }
        None => t.ended(Over::Unset, t.event),
    }
}
