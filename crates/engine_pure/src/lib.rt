// What const and the operators do to the store: their operands read from the cells, the result put into dest's cell.
// at: the place behind an instruction's code, where dest stands in two bytes; then comes the count, in one, and from at + 3 on the operands, two
// each.
// s, a place and cells are a parameter each, and that a place lies in s is asked of each place: a struct of them would be made for an operation
// and taken apart by the operands.
#![tactic(auto)]

ghost use Rattle.std.specs.Prelude.{◌≡◌, ℕ, ◌+◌, ◌*◌, ◌<◌, ◌≤◌, length};
ghost use Rattle.std.specs.Option.{ok_or};
ghost use Rattle.std.proofs.Math.Option.{some};
ghost use Rattle.arith.specs.declared.One.TheVariants.{Id};
ghost use Rattle.arith.specs.Map.{upd};
ghost use Rattle.arith.specs.Value.{int, bool};
ghost use Rattle.arith.specs.Operation.{as_int, as_bool, one, two, with_one, shift, apply2, eval};
ghost use Rattle.record.specs.Record.{NameIx-discrete, type_in};
ghost use Rattle.record.specs.Form.{value_of};
ghost use Rattle.record.specs.Reader.{num_at};
ghost use Rattle.record.specs.Decode.{index_from};
ghost use Rattle.running.specs.House.{held};
ghost use Rattle.running.specs.Items.{plain_from};
ghost use Rattle.engine_cells.specs.Cells.{held_as, cell_holds, store_in};
ghost use Rattle.engine_pure.specs.Works.{Works, told, cells_held, Lies};

use arith::{One, Two};
use engine_cells::{Cell, Cells};

// Why an operation gives no value: a division by 0, or an operand that is not set.
#[derive(Clone, Copy, PartialEq, Eq, Debug)]
pub enum Stop {
    Division,
    Unset,
}

// ---- operations of what was read
// An operator of two ints. The others have no value of them. lvn_simplify::fold_ints has the same arms and makes constants: both by one function
// would want an enum of an int and a bool that each turns into its own.
#[tactic(auto, unfolding(arith::specs::Opened::all_of_arith, words::specs::View::quotient_of, words::specs::View::result_of, crate::specs::Works::told))]
fn of_ints(o: Two, a: u64, b: u64) -> Result<Cell, Stop>
    ensures { cells_held result ≡ told (apply2 o (int a) (int b)) }
{
    match o {
        Two::Add => Ok(Cell::int(words::add(a, b))),
        Two::Sub => Ok(Cell::int(words::sub(a, b))),
        Two::Mul => Ok(Cell::int(words::mul(a, b))),
        Two::Div => Ok(Cell::int(words::divide(a, b).ok_or(Stop::Division)?)),
        Two::Eq => Ok(Cell::bool(a == b)),
        Two::Lt => Ok(Cell::bool(words::less(a, b))),
        Two::Gt => Ok(Cell::bool(words::less(b, a))),
        Two::Le => Ok(Cell::bool(!words::less(b, a))),
        Two::Ge => Ok(Cell::bool(!words::less(a, b))),
        Two::And | Two::Or | Two::PtrAdd => Err(Stop::Unset),
    }
}

// An operator of two bools. The others have no value of them.
#[tactic(auto, unfolding(arith::specs::Opened::all_of_arith, crate::specs::Works::told))]
fn of_bools(o: Two, a: bool, b: bool) -> Result<Cell, Stop>
    ensures { cells_held result ≡ told (apply2 o (bool a) (bool b)) }
{
    match o {
        Two::And => Ok(Cell::bool(a && b)),
        Two::Or => Ok(Cell::bool(a || b)),
        _ => Err(Stop::Unset),
    }
}

// ptradd, of what a name holds and an int.
fn shift(p: Cell, k: u64) -> Result<Cell, Stop>
    ensures { cells_held result ≡ told (with_one (cell_holds p) (λ v. shift v k)) }
{
    if p.kind <= engine_cells::HELD || p.kind == engine_cells::NOTHING {
        return Err(Stop::Unset);
    }
    Ok(Cell {
        offset: words::add(p.offset, k),
        ..p
    })
}

// ---- operands, an int's and a bool's apart: one over a closure that picks the part would be as long
// The int that the name at a place holds.
#[tactic(auto, unfolding(record::specs::Decode::index_from))]
fn int_at<const N: usize>(s: &[u8], place: usize, cells: &Cells<N>) -> Result<u64, Stop>
    requires { place + 1 < length s.now }
    ensures { result ≡ ok_or (held_as as_int (store_in cells.now (index_from s.now place))) Stop.Unset }
{
    cells
        .int(read_fields::number_of::<2>(s, place))
        .ok_or(Stop::Unset)
}

// The bool that the name at a place holds.
#[tactic(auto, unfolding(record::specs::Decode::index_from))]
fn bool_at<const N: usize>(s: &[u8], place: usize, cells: &Cells<N>) -> Result<bool, Stop>
    requires { place + 1 < length s.now }
    ensures { result ≡ ok_or (held_as as_bool (store_in cells.now (index_from s.now place))) Stop.Unset }
{
    cells
        .bool(read_fields::number_of::<2>(s, place))
        .ok_or(Stop::Unset)
}

// ---- operations
// id, of the name at a place.
#[tactic(auto, using(crate::proofs::Evals::copied, engine_cells::proofs::Store::name_at))]
fn copy<const N: usize>(s: &[u8], place: usize, cells: &Cells<N>) -> Result<Cell, Stop>
    requires { place + 1 < length s.now }
    ensures { cells_held result ≡ told (eval (store_in cells.now) (one Id (index_from s.now place))) }
{
    let c = cells.get(read_fields::number_of::<2>(s, place));
    if c.kind == engine_cells::NOTHING {
        return Err(Stop::Unset);
    }
    Ok(c)
}

// What an operator of one name gives.
#[tactic(auto, using(crate::proofs::Evals::of_one))]
fn value_of_one<const N: usize>(s: &[u8], at: usize, o: One, cells: &Cells<N>) -> Result<Cell, Stop>
    requires { at + 5 ≤ length s.now }
    ensures { cells_held result ≡ told (eval (store_in cells.now) (one o (index_from s.now (at + 3)))) }
{
    match o {
        One::Not => Ok(Cell::bool(!bool_at(s, at + 3, cells)?)),
        One::Id => copy(s, at + 3, cells),
    }
}

// What an operator of two names gives.
#[tactic(auto, using(crate::proofs::Evals::of_two))]
fn value_of_two<const N: usize>(s: &[u8], at: usize, o: Two, cells: &Cells<N>) -> Result<Cell, Stop>
    requires { at + 7 ≤ length s.now }
    ensures { cells_held result ≡
        told (eval (store_in cells.now) (two o (index_from s.now (at + 3)) (index_from s.now (at + 5)))) }
{
    match o {
        Two::And | Two::Or => of_bools(o, bool_at(s, at + 3, cells)?, bool_at(s, at + 5, cells)?),
        Two::PtrAdd => {
            let p = cells.get(read_fields::number_of::<2>(s, at + 3));
            shift(p, int_at(s, at + 5, cells)?)
        }
        _ => of_ints(o, int_at(s, at + 3, cells)?, int_at(s, at + 5, cells)?),
    }
}

// not and id. Apart from operate_two: 5 bytes are asked for here and one operand is promised of, there 7, and two.
#[tactic(auto, using(crate::proofs::Works::worked), unfolding(record::specs::Decode::index_from))]
pub fn operate_one<const N: usize>(
    s: &[u8],
    at: usize,
    o: One,
    cells: &mut Cells<N>,
) -> Result<(), Stop>
    requires { Lies N s.now at 5 }
    ensures { Works cells.old cells.new (index_from s.now at)
        (eval (store_in cells.old) (one o (index_from s.now (at + 3)))) result }
{
    let c = value_of_one(s, at, o, cells)?;
    cells.set_cell(read_fields::number_of::<2>(s, at), c);
    Ok(())
}

// The operators of two names.
#[tactic(auto, using(crate::proofs::Works::worked), unfolding(record::specs::Decode::index_from))]
pub fn operate_two<const N: usize>(
    s: &[u8],
    at: usize,
    o: Two,
    cells: &mut Cells<N>,
) -> Result<(), Stop>
    requires { Lies N s.now at 7 }
    ensures { Works cells.old cells.new (index_from s.now at)
        (eval (store_in cells.old) (two o (index_from s.now (at + 3)) (index_from s.now (at + 5)))) result }
{
    let c = value_of_two(s, at, o, cells)?;
    cells.set_cell(read_fields::number_of::<2>(s, at), c);
    Ok(())
}

// ---- const
// The type byte of a literal of this kind in a name of type t: an int literal in a float is held as that literal.
#[tactic(auto, using(crate::proofs::Literals::in_float, crate::proofs::Literals::by_kind))]
fn literal_kind(kind: u8, t: u8) -> u8
    requires { kind ≤ 3 }
    ensures { ((x : ℕ) → plain_from result x ≡ value_of t kind x) × (result ≤ held) }
{
    if kind == record::INT && t == record::FLOAT {
        return engine_cells::HELD;
    }
    kind
}

// const; its literal passes check's tests.
#[tactic(auto, using(crate::proofs::Literals::literal_set))]
pub fn constant<const N: usize>(s: &[u8], at: usize, types: &[u8], cells: &mut Cells<N>)
    requires { (num_at s.now (at + 2) 1 ≤ 3) × Lies N s.now at 11 }
    ensures { store_in cells.new ≡
        upd NameIx-discrete (store_in cells.old) (index_from s.now at)
        (some (value_of (type_in types.now (index_from s.now at)) (num_at s.now (at + 2) 1) (num_at s.now (at + 3) 8))) }
{
    let d = read_fields::number_of::<2>(s, at);
    let kind = literal_kind(
        read_fields::u8_at(s, at + 2),
        read_fields::type_of(types, d),
    );
    cells.set_plain(d, kind, read_fields::be::<8>(s, at + 3));
}
