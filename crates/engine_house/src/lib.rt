// The house form: values, stores and lists of answers as bytes, read with their tests; answers read a second time; and a store written.
// as: the number fits, or u64 and usize have no From; try_from would give an error that cannot happen.
#![tactic(auto)]

ghost use Rattle.std.specs.Prelude.{◌≡◌, true, ◌||◌, ◌+◌, ◌*◌, ◌%◌, ◌<◌, ◌≤◌, T, eqb, length};
ghost use Rattle.arith.specs.Value.{has_type};
ghost use Rattle.record.specs.Record.{nm};
ghost use Rattle.record.specs.Reader.{num_at};
ghost use Rattle.running.specs.House.{go_on_byte, halt_byte, value_type, value_behind, stored_value, house_answer, stored, answers, values_from, stored_bytes, store_bytes};
ghost use Rattle.read_fields.specs.Opens.{opens, longest_form};
ghost use Rattle.read_fields.specs.Places.{places};
ghost use Rattle.write_bytes.specs.Put.{Wrote};
ghost use Rattle.engine_cells.specs.Cells.{cell_value, store_in};
ghost use Rattle.engine_house.specs.Reads.{ReadAs, KindAs, BehindAs, StoredAs, EndAs, Blank, StoreAs, ListAs, answer_there, end_of, values_held};

use engine_cells::{Cell, Cells};

// What an item holds that was read, and the place behind it.
#[derive(Clone, Copy, PartialEq, Eq, Debug)]
pub struct Item {
    pub cell: Cell,
    pub end: usize,
}

// The bytes that stand alone in a list of answers: go on and halt.
pub const GO_ON: u8 = 0xFE;

pub const HALT: u8 = 0xFD;

// Where the items of a form begin: behind its length of four bytes and its version.
pub const ITEMS: usize = 5;

const LENGTH: usize = 4;

const VERSION: u8 = 1;

// ---- types
// Whether a cell's value is of this type.
#[tactic(auto, using(crate::proofs::Values::typed))]
pub fn has_type(t: u8, c: Cell) -> bool
    ensures { result ≡ has_type t (cell_value c) }
{
    let kind = c.kind;
    match kind {
        record::INT..=record::FLOAT => t == kind,
        record::CHAR => t == kind && read_shapes::scalar(c.word),
        engine_cells::HELD => t == record::FLOAT,
        record::POINTER.. => t == kind,
        _ => false,
    }
}

// Whether a value can have this type byte: that of a literal in a float, or a type's, over pointers or alone.
fn value_type(kind: u8) -> bool
    ensures { result ≡ value_type kind }
{
    kind == engine_cells::HELD || read_fields::is_type(u64::from(kind))
}

// ---- values
// A pointer's base and offset, behind its type byte.
#[tactic(auto, using(crate::proofs::Values::pointer_read), unfolding(crate::specs::Reads::KindAs))]
fn two_words(s: &[u8], at: usize, kind: u8) -> Option<Item>
    requires { 16 ≤ kind }
    ensures { ReadAs (value_behind kind s.now at) result × KindAs kind result }
{
    let (word, p) = read_fields::field_at::<8>(s, at).ok()?;
    let (offset, end) = read_fields::field_at::<8>(s, p).ok()?;
    Some(Item {
        cell: Cell { kind, word, offset },
        end,
    })
}

// The kind of the literal as which the word of a value that is no pointer is tested: one that a float holds is an int's.
fn literal_kind(kind: u8) -> u8
    requires { kind ≤ 4 }
    ensures { result ≡ kind % 4 }
{
    if kind == engine_cells::HELD {
        record::INT
    } else {
        kind
    }
}

// The word of a value that is no pointer, tested as a literal of its kind.
#[tactic(auto, using(crate::proofs::Values::plain_read), unfolding(crate::specs::Reads::KindAs))]
fn one_word(s: &[u8], at: usize, kind: u8) -> Option<Item>
    requires { kind ≤ 4 }
    ensures { ReadAs (value_behind kind s.now at) result × KindAs kind result }
{
    let (word, end) = read_fields::field_at::<8>(s, at).ok()?;
    read_shapes::literal_test(u64::from(literal_kind(kind)), word).ok()?;
    Some(Item {
        cell: Cell {
            kind,
            word,
            offset: 0,
        },
        end,
    })
}

// What stands behind the type byte of a value, if it is one.
#[tactic(auto, using(crate::proofs::Items::value_reads))]
fn value_behind(s: &[u8], at: usize, kind: u8) -> Option<Item>
    ensures { BehindAs (value_type kind) kind (value_behind kind s.now at) result }
{
    if !value_type(kind) {
        return None;
    }
    if record::POINTER <= kind {
        return two_words(s, at, kind);
    }
    one_word(s, at, kind)
}

// ---- stores and lists of answers
// Whether a form opens with its length and in this version.
fn opens(s: &[u8]) -> bool
    ensures { (result ≡ opens 5 1 s.now) × (result ≡ true → length s.now < longest_form) }
{
    read_fields::opens(s, ITEMS, u64::from(VERSION))
}

// A value of the store, which has to be of type t, or nothing.
#[tactic(auto, using(crate::proofs::Items::stored_reads))]
fn stored_at(s: &[u8], at: usize, t: u8) -> Option<Item>
    ensures { StoredAs t (stored_value s.now at) result }
{
    let kind = *s.get(at)?;
    if kind == engine_cells::NOTHING {
        return Some(Item {
            cell: engine_cells::NO_CELL,
            end: at + 1,
        });
    }
    let item = value_behind(s, at + 1, kind)?;
    has_type(t, item.cell).then_some(item)
}

// A store of names of these types put into cells of which none is set, if it reads and each value is of its name's type.
#[tactic(auto, using(crate::proofs::Store::store_reads))]
pub fn read_store<const N: usize>(s: &[u8], types: &[u8], cells: &mut Cells<N>) -> Option<()>
    requires blank { Blank cells.old }
    requires named { length types.now ≤ N }
    ensures { StoreAs types.now (stored (length types.now) s.now 0) cells.new result }
{
    if !opens(s) {
        return None;
    }
    let mut p = ITEMS;
    for (i, t) in types.iter().enumerate() {
        let item = stored_at(s, p, *t)?;
        cells.set_cell(i as u64, item.cell);
        p = item.end;
    }
    (p >= s.len()).then_some(())
}

// Whether a byte stands alone in a list of answers.
fn alone(kind: u8) -> bool
    ensures { result ≡ (eqb kind go_on_byte || eqb kind halt_byte) }
{
    kind == GO_ON || kind == HALT
}

// The place behind an answer. Apart from stored_at: other bytes stand alone here, and nothing but the place is handed on.
#[tactic(auto, using(crate::proofs::Items::answer_reads))]
fn answer_at(s: &[u8], at: usize) -> Option<usize>
    ensures { EndAs (house_answer s.now at) result }
{
    let kind = *s.get(at)?;
    if alone(kind) {
        return Some(at + 1);
    }
    Some(value_behind(s, at + 1, kind)?.end)
}

// A list of answers: how many it has, if it reads.
#[tactic(auto, using(crate::proofs::Answers::list_closed, crate::proofs::Answers::list_start))]
pub fn read_answers(s: &[u8]) -> Option<usize>
    ensures { ListAs s.now (answers s.now 0) result }
{
    if !opens(s) {
        return None;
    }
    let mut p = ITEMS;
    let mut n = 0;
    // How many answers there are is not known before they are read, so nothing is counted up to.
    while p < s.len() {
        p = answer_at(s, p)?;
        n += 1;
    }
    Some(n)
}

// ---- answers a second time
// An answer of the world.
#[derive(Clone, Copy, PartialEq, Eq, Debug)]
pub enum Answer {
    GoOn,
    Halt,
    Value(Cell),
}

// at + 17 < places, that a value from there on ends at a place: answer_again and end ask it of a place of the list, put_held of one of the
// output, so no type could keep it for them all.

// The answer at a place of a list that was read.
pub fn answer_again(s: &[u8], at: usize) -> Answer
    requires { at + 17 < places }
    ensures { result ≡ answer_there s.now at }
{
    match read_fields::u8_at(s, at) {
        GO_ON => Answer::GoOn,
        HALT => Answer::Halt,
        kind => Answer::Value(Cell {
            kind,
            word: read_fields::be::<8>(s, at + 1),
            offset: read_fields::be::<8>(s, at + 1 + 8),
        }),
    }
}

impl Answer {
    // The place behind it, if it stands at this one. Not by value_size: of the bytes 05 to 0F, which no value has, that counts 17 bytes, and
    // the definitions, of which the contract speaks for any byte, 9.
    pub fn end(self, at: usize) -> usize
        requires { at + 17 < places }
        ensures { (result ≡ end_of self at) × (result ≤ at + 17) }
    {
        match self {
            Answer::GoOn | Answer::Halt => at + 1,
            Answer::Value(c) if record::POINTER <= c.kind => at + 1 + 8 + 8,
            Answer::Value(_) => at + 1 + 8,
        }
    }
}

// ---- a store written
// What a name holds, or nothing; the place behind it.
fn put_held<const N: usize>(cells: &Cells<N>, x: u64, out: &mut [u8], at: usize) -> usize
    requires { at + 17 < places }
    ensures { Wrote out.old out.new at result (stored_bytes (store_in cells.now (nm x))) × (result ≤ at + 17) }
{
    if cells.get(x).kind == engine_cells::NOTHING {
        write_bytes::put_u8(out, at, engine_cells::NOTHING);
        return at + 1;
    }
    cells.put_value(x, out, at)
}

// What the first n names hold, from a place on; the place behind it.
#[tactic(auto, using(crate::proofs::Written::held_none, crate::proofs::Written::held_all))]
fn put_cells<const N: usize>(cells: &Cells<N>, n: u64, out: &mut [u8], at: usize) -> usize
    requires { (n ≤ 256) × (at + 17 * n + 17 < places) }
    ensures { Wrote out.old out.new at result (values_held cells.now 0 n) × (result ≤ at + 17 * n) }
{
    let mut q = at;
    for x in 0..n {
        q = put_held(cells, x, out, q);
    }
    q
}

// The store of n names with its length and version; how many bytes it has.
pub fn put_store<const N: usize>(cells: &Cells<N>, n: u64, out: &mut [u8]) -> usize
    requires { n ≤ 256 }
    ensures { Wrote out.old out.new 0 result (store_bytes (values_from (store_in cells.now) 0 n)) }
{
    let end = put_cells(cells, n, out, ITEMS);
    write_bytes::put_u8(out, LENGTH, VERSION);
    write_bytes::put_u32(out, 0, (end - LENGTH) as u32);
    end
}
