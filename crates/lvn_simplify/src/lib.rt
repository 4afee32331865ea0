// Simplifying a value over its operator and what is known of its operands, as numbering's specs/Simplify.antt has it:
// folds, then identities, then the order of operands.
#![tactic(auto)]

ghost use Rattle.std.specs.Prelude.{◌≡◌, not};
ghost use Rattle.std.proofs.Math.Option.{Option, some, map as mapped};
ghost use Rattle.arith.specs.declared.Two.TheVariants as two_operands;
ghost use Rattle.arith.specs.Value.{Val, int, bool};
ghost use Rattle.arith.specs.declared.One.TheVariants.{Not};
ghost use Rattle.arith.specs.Operation.{apply1, apply2, divide};
ghost use Rattle.numbering.specs.Simplify.{folded, fold1, fold2, is_int, is_bool, absorbs, identity};
ghost use Rattle.numbering.specs.Simplify.{sorted, ordered, simplify1, simplify2};
ghost use Rattle.numbering.specs.View.{val_of, expr_of};
ghost use Rattle.lvn_simplify.specs.View.{known_of, fold_of, found_of};

use arith::{One, Two};
use numbering::{Constant, ValNum, Value};

// An operand: its number, and the constant of that number, where it is known.
#[derive(Clone, Copy, PartialEq, Eq, Debug)]
pub struct Operand {
    pub num: ValNum,
    pub known: Option<Constant>,
}

// ---- folds

// "div by 0 ..: no fold, the division stays".
#[tactic(auto, unfolding(numbering::specs::Simplify::folded, words::specs::View::quotient_of, words::specs::View::result_of, arith::specs::Opened::all_of_arith))]
pub fn fold_quotient(v: u64, w: u64) -> Option<Constant>
    ensures { fold_of result ≡ folded (divide v w) }
{
    words::divide(v, w).map(Constant::Int)
}

// The fold of two ints.
#[tactic(auto, unfolding(numbering::specs::Simplify::folded, arith::specs::Opened::all_of_arith))]
pub fn fold_ints(o: Two, v: u64, w: u64) -> Option<Constant>
    ensures { fold_of result ≡ folded (apply2 o (int v) (int w)) }
{
    match o {
        Two::Add => Some(Constant::Int(words::add(v, w))),
        Two::Sub => Some(Constant::Int(words::sub(v, w))),
        Two::Mul => Some(Constant::Int(words::mul(v, w))),
        Two::Div => fold_quotient(v, w),
        Two::Eq => Some(Constant::Bool(v == w)),
        Two::Lt => Some(Constant::Bool(words::less(v, w))),
        Two::Gt => Some(Constant::Bool(words::less(w, v))),
        Two::Le => Some(Constant::Bool(!words::less(w, v))),
        Two::Ge => Some(Constant::Bool(!words::less(v, w))),
        Two::And | Two::Or | Two::PtrAdd => None,
    }
}

// The fold of two bools.
#[tactic(auto, unfolding(numbering::specs::Simplify::folded, arith::specs::Opened::all_of_arith))]
pub fn fold_bools(o: Two, v: bool, w: bool) -> Option<Constant>
    ensures { fold_of result ≡ folded (apply2 o (bool v) (bool w)) }
{
    match o {
        Two::And => Some(Constant::Bool(v && w)),
        Two::Or => Some(Constant::Bool(v || w)),
        _ => None,
    }
}

// The fold of two constants: they have to be of one type.
#[tactic(auto, unfolding(numbering::specs::Simplify::folded, arith::specs::Opened::all_of_arith))]
pub fn fold_constants(o: Two, c: Constant, d: Constant) -> Option<Constant>
    ensures { fold_of result ≡ folded (apply2 o (val_of c) (val_of d)) }
{
    match (c, d) {
        (Constant::Int(v), Constant::Int(w)) => fold_ints(o, v, w),
        (Constant::Bool(v), Constant::Bool(w)) => fold_bools(o, v, w),
        _ => None,
    }
}

// The fold of two operands: both have to be known.
#[tactic(auto, unfolding(numbering::specs::Simplify::fold2))]
pub fn fold_two(o: Two, x: Operand, y: Operand) -> Option<Constant>
    ensures { fold_of result ≡ fold2 o (known_of x.known) (known_of y.known) }
{
    fold_constants(o, x.known?, y.known?)
}

// The negation of a bool.
#[tactic(auto, unfolding(numbering::specs::Simplify::folded, arith::specs::Opened::all_of_arith))]
pub fn fold_not(c: Constant) -> Option<Constant>
    ensures { fold_of result ≡ folded (apply1 Not (val_of c)) }
{
    match c {
        Constant::Bool(b) => Some(Constant::Bool(!b)),
        _ => None,
    }
}

// The fold of one operand.
#[tactic(auto, unfolding(numbering::specs::Simplify::folded, numbering::specs::Simplify::fold1, arith::specs::Opened::all_of_arith))]
pub fn fold_one(o: One, x: Operand) -> Option<Constant>
    ensures { fold_of result ≡ fold1 o (known_of x.known) }
{
    match o {
        One::Id => x.known,
        One::Not => fold_not(x.known?),
    }
}

// ---- identities

// Whether this int is known.
#[tactic(auto, unfolding(numbering::specs::Simplify::is_int))]
pub fn is_int(n: u64, known: Option<Constant>) -> bool
    ensures { result ≡ is_int n (known_of known) }
{
    known == Some(Constant::Int(n))
}

// Whether this bool is known.
#[tactic(auto, unfolding(numbering::specs::Simplify::is_bool))]
pub fn is_bool(b: bool, known: Option<Constant>) -> bool
    ensures { result ≡ is_bool b (known_of known) }
{
    known == Some(Constant::Bool(b))
}

// "0 + y is id y; .. likewise on the other side".
#[tactic(auto, unfolding(numbering::specs::Simplify::identity))]
pub fn identity_add(x: Operand, y: Operand) -> Option<Value>
    ensures { found_of result ≡ mapped some (identity two_operands.Add (known_of x.known) (known_of y.known) x.num y.num) }
{
    if is_int(0, x.known) {
        Some(Value::One(One::Id, y.num))
    } else if is_int(0, y.known) {
        Some(Value::One(One::Id, x.num))
    } else {
        None
    }
}

// "0 times y is 0; 1 times y is id y; 2 times y is add y y; likewise on the other side".
#[tactic(auto, unfolding(numbering::specs::Simplify::identity))]
pub fn identity_mul(x: Operand, y: Operand) -> Option<Value>
    ensures { found_of result ≡ mapped some (identity two_operands.Mul (known_of x.known) (known_of y.known) x.num y.num) }
{
    if is_int(0, x.known) || is_int(0, y.known) {
        Some(Value::Constant(Constant::Int(0)))
    } else if is_int(1, x.known) {
        Some(Value::One(One::Id, y.num))
    } else if is_int(1, y.known) {
        Some(Value::One(One::Id, x.num))
    } else if is_int(2, x.known) {
        Some(Value::Two(Two::Add, y.num, y.num))
    } else if is_int(2, y.known) {
        Some(Value::Two(Two::Add, x.num, x.num))
    } else {
        None
    }
}

// "false and y is false; true and y is id y; dually for or": z, on either side, is the bool that decides alone.
pub fn absorb(z: bool, x: Operand, y: Operand) -> Option<Value>
    ensures { found_of result ≡ mapped some (absorbs z (not z) (known_of x.known) (known_of y.known) x.num y.num) }
{
    if is_bool(z, x.known) || is_bool(z, y.known) {
        Some(Value::Constant(Constant::Bool(z)))
    } else if is_bool(!z, x.known) {
        Some(Value::One(One::Id, y.num))
    } else if is_bool(!z, y.known) {
        Some(Value::One(One::Id, x.num))
    } else {
        None
    }
}

// "eq of one number with itself is true", whatever is known.
#[tactic(auto, unfolding(numbering::specs::Simplify::identity))]
pub fn identity_eq(x: Operand, y: Operand) -> Option<Value>
    ensures { (u v : Option Val) → found_of result ≡ mapped some (identity two_operands.Eq u v x.num y.num) }
{
    (x.num == y.num).then_some(Value::Constant(Constant::Bool(true)))
}

// "p ptradd 0 is id p": of the int alone something can be known.
#[tactic(auto, unfolding(numbering::specs::Simplify::identity))]
pub fn identity_ptr_add(x: Operand, y: Operand) -> Option<Value>
    ensures { (u : Option Val) → found_of result ≡ mapped some (identity two_operands.PtrAdd u (known_of y.known) x.num y.num) }
{
    is_int(0, y.known).then_some(Value::One(One::Id, x.num))
}

// The identity that holds of an operator and what is known of its operands.
#[tactic(auto, unfolding(numbering::specs::Simplify::identity))]
pub fn identity(o: Two, x: Operand, y: Operand) -> Option<Value>
    ensures { found_of result ≡ mapped some (identity o (known_of x.known) (known_of y.known) x.num y.num) }
{
    match o {
        Two::Add => identity_add(x, y),
        Two::Mul => identity_mul(x, y),
        Two::Eq => identity_eq(x, y),
        Two::And => absorb(false, x, y),
        Two::Or => absorb(true, x, y),
        Two::PtrAdd => identity_ptr_add(x, y),
        _ => None,
    }
}

// ---- the order of operands

// The smaller number first.
pub fn sort_val_nums(o: Two, a: ValNum, b: ValNum) -> Value
    ensures { expr_of result ≡ some (sorted o a b) }
{
    if b < a {
        Value::Two(o, b, a)
    } else {
        Value::Two(o, a, b)
    }
}

// "otherwise add, mul, and, or, eq put the smaller number first"; gt becomes lt with its operands exchanged, ge le.
#[tactic(auto, unfolding(numbering::specs::Simplify::ordered))]
pub fn order(o: Two, a: ValNum, b: ValNum) -> Value
    ensures { expr_of result ≡ some (ordered o a b) }
{
    match o {
        Two::Add | Two::Mul | Two::Eq | Two::And | Two::Or => sort_val_nums(o, a, b),
        Two::Gt => Value::Two(Two::Lt, b, a),
        Two::Ge => Value::Two(Two::Le, b, a),
        Two::Sub | Two::Div | Two::Lt | Two::Le | Two::PtrAdd => Value::Two(o, a, b),
    }
}

// ---- simplify

// An operator of one operand.
#[tactic(auto, unfolding(numbering::specs::Simplify::simplify1))]
pub fn simplify_one(o: One, x: Operand) -> Value
    ensures { expr_of result ≡ some (simplify1 o (known_of x.known) x.num) }
{
    match fold_one(o, x) {
        Some(c) => Value::Constant(c),
        None => Value::One(o, x.num),
    }
}

// An operator of two operands.
#[tactic(auto, unfolding(numbering::specs::Simplify::simplify2))]
pub fn simplify_two(o: Two, x: Operand, y: Operand) -> Value
    ensures { expr_of result ≡ some (simplify2 o (known_of x.known) (known_of y.known) x.num y.num) }
{
    if let Some(c) = fold_two(o, x, y) {
        return Value::Constant(c);
    }
    if let Some(v) = identity(o, x, y) {
        return v;
    }
    order(o, x.num, y.num)
}
