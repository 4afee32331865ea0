// One instruction: its arguments numbered and replaced by their homes, its value formed, simplified and looked up, the save that it owes.
// M: how many names there can be; N: how many numbers.
#![tactic(auto)]

ghost use Rattle.std.specs.Prelude.{◌≡◌, [], ◌∷◌, map, ℕ, ◌+◌, ◌<◌, ◌≤◌};
ghost use Rattle.arith.specs.Code.{code1, code2};
ghost use Rattle.arith.specs.Operation.{constant, one, two};
ghost use Rattle.record.specs.declared.NameIx.{NameIx};
ghost use Rattle.record.specs.Record.{nm, no_lit, type_in};
ghost use Rattle.record.specs.Form.{value_of, form};
ghost use Rattle.record.specs.Answer.{literal_of};
ghost use Rattle.record.specs.View.{instr_of, code_of, row_of};
ghost use Rattle.numbering.specs.State.{State, number_of, home_of, known};
ghost use Rattle.numbering.specs.Number.{make_val, literal_for, make_const_instr, make_val_instr, make_id_instr};
ghost use Rattle.numbering.specs.Number.{rewrite_instr, place, unchanged, instr_lvn};
ghost use Rattle.numbering.specs.View.{val_of, expr_of};
ghost use Rattle.numbering.proofs.Simplified.{MaybeOk};
ghost use Rattle.lvn_simplify.specs.View.{known_of};
ghost use Rattle.lvn_values.specs.Table.{numbered_of};
ghost use Rattle.lvn_state.specs.View.{state_of};
ghost use Rattle.lvn_state.specs.Room.{room, Maps};
ghost use Rattle.lvn_instr.specs.View.{Ready, Named, Placeable, Reads, has_dest, value_by, Any, written_as, chosen, by_op, emitted_of};

use arith::{One, Two};
use lvn_simplify::Operand;
use lvn_state::LvnState;
use numbering::{Constant, ValNum, Value};
use record::{Instruction, Literal, NameIx, Op, Row};

// The made name of the save that is written before an instruction, where one is owed, and what the instruction is written as.
#[derive(Clone, Copy, Debug)]
pub struct Emitted {
    pub made: Option<NameIx>,
    pub instr: Instruction,
}

// ---- the value of an instruction

// Of a const in a name of type t: an int literal of a float is the value "that literal"; floats and chars are new each time.
pub fn const_value(l: Literal, t: u8) -> Value
    ensures { (s : State) → expr_of result ≡ make_val s (constant (value_of t (literal_of l).kind (literal_of l).bits)) }
{
    match l {
        Literal::Int(z) => {
            let w = z.cast_unsigned();
            if t == record::FLOAT {
                Value::Constant(Constant::IntAsFloat(w))
            } else {
                Value::Constant(Constant::Int(w))
            }
        }
        Literal::Bool(b) => Value::Constant(Constant::Bool(b)),
        Literal::Float(_) | Literal::Nan(_) | Literal::Char(_) => Value::Unique,
    }
}

// A name as an operand: its number, and the constant that is known of it.
pub fn operand<const M: usize, const N: usize>(st: &LvnState<M, N>, x: NameIx) -> Operand
    ensures { (result.num ≡ number_of (state_of st.now) x) ×
        ((known_of result.known ≡ known (state_of st.now) result.num) × (result.num.0 < 65535)) }
{
    let num = st.number_of(x);
    Operand {
        num,
        known: st.known(num),
    }
}

// Of an operator of one argument, simplified.
pub fn value_one<const M: usize, const N: usize>(st: &LvnState<M, N>, o: One, x: NameIx) -> Value
    ensures { ((s : State) → Reads s (state_of st.now) → expr_of result ≡ make_val s (one o x)) × MaybeOk Any 65535 (expr_of result) }
{
    lvn_simplify::simplify_one(o, operand(st, x))
}

// Of an operator of two arguments, simplified.
pub fn value_two<const M: usize, const N: usize>(
    st: &LvnState<M, N>,
    o: Two,
    x: NameIx,
    y: NameIx,
) -> Value
    ensures { ((s : State) → Reads s (state_of st.now) → expr_of result ≡ make_val s (two o x y)) × MaybeOk Any 65535 (expr_of result) }
{
    lvn_simplify::simplify_two(o, operand(st, x), operand(st, y))
}

// Of an instruction whose dest has the type t, simplified; one that has no dest, or a new value each time, has Unique.
pub fn make_val<const M: usize, const N: usize>(
    st: &LvnState<M, N>,
    i: &Instruction,
    t: u8,
) -> Value
    requires { Ready i.now }
    ensures { ((s : State) (types : NameIx → ℕ) → Reads s (state_of st.now) → types i.now.dest ≡ t →
        expr_of result ≡ value_by s (form types (instr_of i.now))) ×
        MaybeOk Any 65535 (expr_of result) }
{
    match i.op {
        Op::Const => const_value(i.literal, t),
        Op::One(o) => value_one(st, o, NameIx(i.args.items[0])),
        Op::Two(o) => value_two(st, o, NameIx(i.args.items[0]), NameIx(i.args.items[1])),
        _ => Value::Unique,
    }
}

// ---- what is written

// These names replaced by the homes of their numbers.
pub fn replace_args<const M: usize, const N: usize>(st: &LvnState<M, N>, args: &mut [u16])
    ensures { (s : State) → s.env ≡ (state_of st.now).env → s.locs ≡ (state_of st.now).locs →
        map nm args.new ≡ map (home_of s) (map nm args.old) }
{
    for x in args.iter_mut() {
        *x = st.home(st.number_of(NameIx(*x))).0;
    }
}

// "replace arguments by their numbers' homes".
pub fn rewrite_instr<const M: usize, const N: usize>(
    st: &LvnState<M, N>,
    i: Instruction,
) -> Instruction
    ensures { ((s : State) → s.env ≡ (state_of st.now).env → s.locs ≡ (state_of st.now).locs →
        instr_of result ≡ rewrite_instr s (instr_of i).args (instr_of i)) ×
        ((result.args.count ≡ i.args.count) × (result.op ≡ i.op)) }
{
    let count = i.args.count;
    let mut items = i.args.items;
    replace_args(st, &mut items[..usize::from(count)]);
    Instruction {
        args: Row { items, count },
        ..i
    }
}

// The literal of a constant.
pub fn literal_for(c: Constant) -> Literal
    ensures { literal_of result ≡ literal_for (val_of c) }
{
    match c {
        Constant::Int(w) | Constant::IntAsFloat(w) => Literal::Int(w.cast_signed()),
        Constant::Bool(b) => Literal::Bool(b),
    }
}

// An operation over names, which has nothing else.
fn over(id: u64, op: Op, dest: NameIx, args: Row) -> Instruction
    ensures { (instr_of result ≡
        record { id = id; code = code_of op; dest = dest; lit = no_lit; args = map nm (row_of args); callee = 0; blocks = [] }) ×
        (result.id ≡ id) }
{
    Instruction {
        id,
        op,
        dest,
        literal: Literal::Int(0),
        args,
        callee: 0,
        blocks: Row::of([]),
    }
}

// A const under the id and dest of i.
pub fn make_const_instr(i: &Instruction, c: Constant) -> Instruction
    ensures { instr_of result ≡ make_const_instr (instr_of i.now) (val_of c) }
{
    Instruction {
        literal: literal_for(c),
        ..over(i.id, Op::Const, i.dest, Row::of([]))
    }
}

// An operator of one argument.
pub fn one_instr(id: u64, dest: NameIx, o: One, x: NameIx) -> Instruction
    ensures { (instr_of result ≡
        record { id = id; code = code1 o; dest = dest; lit = no_lit; args = x ∷ []; callee = 0; blocks = [] }) ×
        (result.id ≡ id) }
{
    over(id, Op::One(o), dest, Row::of([x.0]))
}

// An operator of one argument, a number's home, under the id and dest of i.
pub fn make_one_instr<const M: usize, const N: usize>(
    st: &LvnState<M, N>,
    i: &Instruction,
    o: One,
    a: ValNum,
) -> Instruction
    ensures { instr_of result ≡ make_val_instr (instr_of i.now) (code1 o) ((state_of st.now).locs a ∷ []) }
{
    one_instr(i.id, i.dest, o, st.home(a))
}

// An operator of two arguments, numbers' homes, under the id and dest of i.
pub fn make_two_instr<const M: usize, const N: usize>(
    st: &LvnState<M, N>,
    i: &Instruction,
    o: Two,
    a: ValNum,
    b: ValNum,
) -> Instruction
    ensures { instr_of result ≡
        make_val_instr (instr_of i.now) (code2 o) ((state_of st.now).locs a ∷ (state_of st.now).locs b ∷ []) }
{
    let x = st.home(a);
    let y = st.home(b);
    over(i.id, Op::Two(o), i.dest, Row::of([x.0, y.0]))
}

// The instruction of a value; one that is new each time stays.
pub fn val_to_instr<const M: usize, const N: usize>(
    st: &LvnState<M, N>,
    i: &Instruction,
    v: Value,
) -> Instruction
    ensures { (s : State) → s.locs ≡ (state_of st.now).locs → instr_of result ≡ written_as s (instr_of i.now) (expr_of v) }
{
    match v {
        Value::Unique => *i,
        Value::Constant(c) => make_const_instr(i, c),
        Value::One(o, a) => make_one_instr(st, i, o, a),
        Value::Two(o, a, b) => make_two_instr(st, i, o, a, b),
    }
}

// A number that is there: "const if the constant is known, else id of its home". k: the constant, where it is known.
pub fn make_id_instr<const M: usize, const N: usize>(
    st: &LvnState<M, N>,
    k: Option<Constant>,
    i: &Instruction,
    v: ValNum,
) -> Instruction
    ensures { (s : State) → s.locs ≡ (state_of st.now).locs → instr_of result ≡ make_id_instr (known_of k) s (instr_of i.now) v }
{
    match k {
        Some(c) => make_const_instr(i, c),
        None => make_one_instr(st, i, One::Id, v),
    }
}

// What is written: w where the value has no number yet, else a copy of its number.
pub fn choose<const M: usize, const N: usize>(
    st: &LvnState<M, N>,
    number: Option<ValNum>,
    i: &Instruction,
    w: Instruction,
) -> Instruction
    ensures { (s : State) → s.locs ≡ (state_of st.now).locs → s.vals ≡ (state_of st.now).vals →
        instr_of result ≡ chosen s (instr_of i.now) (instr_of w) (numbered_of number) }
{
    match number {
        Some(v) => make_id_instr(st, st.known(v), i, v),
        None => w,
    }
}

// ---- one instruction

// An instruction with a dest, whose arguments are replaced and whose value is v: the save that it owes, then dest takes v's number.
pub fn place<const M: usize, const N: usize>(
    st: &mut LvnState<M, N>,
    n: u16,
    i: &Instruction,
    v: Value,
) -> Emitted
    requires { Placeable M N (state_of st.old) n i.now v }
    ensures { emitted_of (state_of st.new) result ≡ place n (state_of st.old) (instr_of i.now) (expr_of v) }
{
    let w = val_to_instr(st, i, v);
    let made = st.handle_overwrite(n, i.dest, v);
    let number = st.number_dest(i.dest, v);
    Emitted {
        made,
        instr: choose(st, number, i, w),
    }
}

// An instruction with no dest.
pub fn unchanged(i: &Instruction) -> Emitted
    ensures { (s : State) → emitted_of s result ≡ unchanged s (instr_of i.now) }
{
    Emitted {
        made: None,
        instr: *i,
    }
}

// Const, the operators and what is new each time have a dest.
pub fn has_dest(op: Op) -> bool
    ensures { result ≡ has_dest op }
{
    match op {
        Op::Const | Op::One(_) | Op::Two(_) | Op::New(_) => true,
        Op::Effect(_) | Op::Nop | Op::Jmp | Op::Br | Op::Ret => false,
    }
}

// By the operation; what has no dest stays. n, i and v come from three places and go on to place alone: a struct would be built here only
// to be taken apart there.
pub fn emit<const M: usize, const N: usize>(
    st: &mut LvnState<M, N>,
    n: u16,
    i: &Instruction,
    v: Value,
) -> Emitted
    requires { Placeable M N (state_of st.old) n i.now v }
    ensures { emitted_of (state_of st.new) result ≡ by_op n (state_of st.old) (instr_of i.now) i.now.op (expr_of v) }
{
    if has_dest(i.op) {
        place(st, n, i, v)
    } else {
        unchanged(i)
    }
}

// One instruction of a block. n: how many names the input has; types: their types.
pub fn instr_lvn<const M: usize, const N: usize>(
    st: &mut LvnState<M, N>,
    n: u16,
    types: &[u8],
    i: Instruction,
) -> Emitted
    requires { Ready i × (Named M (instr_of i) ×
        ((room M (state_of st.old) < N) × ((n + st.old.made < 65535) × Maps M N))) }
    ensures { emitted_of (state_of st.new) result ≡ instr_lvn n (type_in types.now) (state_of st.old) (instr_of i) }
{
    let t = read_fields::type_of(types, u64::from(i.dest.0));
    st.gen_new_vals(i.args.as_slice());
    let v = make_val(st, &i, t);
    let j = rewrite_instr(st, i);
    emit(st, n, &j, v)
}
