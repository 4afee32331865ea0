// The store of a running function: a cell for each name, and the values of a row of names, measured and written.
// as: u64 and usize have no From; try_from would give an error that cannot happen.
#![tactic(auto)]

ghost use Rattle.std.specs.Prelude.{◌≡◌, ◌≢◌, cond, ℕ, ◌+◌, ◌*◌, ◌<◌, ◌≤◌, leb};
ghost use Rattle.std.proofs.Math.Option.{none, some};
ghost use Rattle.arith.specs.Map.{upd};
ghost use Rattle.arith.specs.Value.{int, bool};
ghost use Rattle.arith.specs.Operation.{as_int, as_bool};
ghost use Rattle.record.specs.declared.NameIx.{NameIx};
ghost use Rattle.record.specs.Record.{nm, NameIx-discrete};
ghost use Rattle.record.specs.Write.{be};
ghost use Rattle.machine.specs.Machine.{read_all};
ghost use Rattle.running.specs.House.{held, words, value_bytes};
ghost use Rattle.running.specs.Items.{plain_from};
ghost use Rattle.read_fields.specs.Places.{places};
ghost use Rattle.write_bytes.specs.Put.{Wrote};
ghost use Rattle.engine_cells.specs.Cells.{cell_holds, cell_in, held_as, value_in, store_in, row_from, size_of, RowWritten};

// The type byte of an int literal held by a float, which is the last without a pointer, and the byte of nothing, as the house form has them.
pub const HELD: u8 = 0x04;

pub const NOTHING: u8 = 0xFF;

// What a name holds: the type byte of its value, or that of nothing; its word, or a pointer's base; and a pointer's offset. The kind stays a
// byte, and the store has its parts in arrays of their own: an array of whole cells took 1.38 times the time in a loop of arithmetic, and one of
// Options of an enum with a variant for each kind 1.15 times.
#[derive(Clone, Copy, PartialEq, Eq, Debug)]
pub struct Cell {
    pub kind: u8,
    pub word: u64,
    pub offset: u64,
}

impl Cell {
    // A cell of an int.
    #[tactic(auto, unfolding(crate::specs::Cells::held_by, crate::specs::Cells::value_by, running::specs::Items::plain_from))]
    pub fn int(word: u64) -> Cell
        ensures { cell_holds result ≡ some (int word) }
    {
        Cell {
            kind: record::INT,
            word,
            offset: 0,
        }
    }

    // A cell of a bool.
    #[tactic(auto, unfolding(crate::specs::Cells::held_by, crate::specs::Cells::value_by, running::specs::Items::plain_from))]
    pub fn bool(b: bool) -> Cell
        ensures { cell_holds result ≡ some (bool b) }
    {
        Cell {
            kind: record::BOOL,
            word: u64::from(b),
            offset: 0,
        }
    }
}

// The cell of a name that holds nothing.
pub const NO_CELL: Cell = Cell {
    kind: NOTHING,
    word: 0,
    offset: 0,
};

// ---- values
// The bytes of a value with this type byte.
pub fn value_size(kind: u8) -> usize
    ensures { result ≡ cond (leb kind held) 9 17 }
{
    if kind <= HELD { 9 } else { 17 }
}

// The word of a value that is no pointer, as it is written: that of a bool is 0 or 1.
#[tactic(auto, using(crate::proofs::Values::word_of_bool, crate::proofs::Values::word_of_plain))]
fn written_word(kind: u8, word: u64) -> u64
    ensures { be 8 result ≡ words (plain_from kind word) }
{
    if kind == record::BOOL {
        u64::from(word != 0)
    } else {
        word
    }
}

// ---- the store
// What the first N names of a function hold; those past them hold nothing. Each part of the cells stands in an array of its own, so that it
// is read and written alone: a whole cell waits for the byte of its kind where that was just written, and has bytes of no use behind it.
#[derive(Clone, Copy)]
pub struct Cells<const N: usize> {
    kinds: [u8; N],
    words: [u64; N],
    offsets: [u64; N],
}

impl<const N: usize> Cells<N> {
    // No name is set.
    #[tactic(auto, using(crate::proofs::Store::held_none, crate::proofs::Store::replicated), unfolding(crate::specs::Cells::store_in))]
    pub fn new() -> Cells<N>
        ensures { (x : NameIx) → store_in result x ≡ none }
    {
        Cells {
            kinds: [NOTHING; N],
            words: [0; N],
            offsets: [0; N],
        }
    }

    // What a name holds; past the last name, nothing.
    pub fn get(&self, x: u64) -> Cell
        ensures { result ≡ cell_in self.now x }
    {
        // One test for the three arrays: get would test at each.
        if x < N as u64 {
            let i = x as usize;
            Cell {
                kind: self.kinds[i],
                word: self.words[i],
                offset: self.offsets[i],
            }
        } else {
            NO_CELL
        }
    }

    // The int that a name holds.
    #[tactic(auto, using(crate::proofs::ByKind::int_by, crate::proofs::Store::held_in))]
    pub fn int(&self, x: u64) -> Option<u64>
        ensures { result ≡ held_as as_int (store_in self.now (nm x)) }
    {
        let c = self.get(x);
        (c.kind == record::INT).then_some(c.word)
    }

    // The bool that a name holds.
    #[tactic(auto, using(crate::proofs::ByKind::bool_by, crate::proofs::Store::held_in))]
    pub fn bool(&self, x: u64) -> Option<bool>
        ensures { result ≡ held_as as_bool (store_in self.now (nm x)) }
    {
        let c = self.get(x);
        (c.kind == record::BOOL).then_some(c.word != 0)
    }

    // A name given what a cell holds.
    #[tactic(auto, using(crate::proofs::Store::set_store))]
    pub fn set_cell(&mut self, x: u64, c: Cell)
        requires { x < N }
        ensures { store_in self.new ≡ upd NameIx-discrete (store_in self.old) (nm x) (cell_holds c) }
    {
        let i = x as usize;
        self.kinds[i] = c.kind;
        self.words[i] = c.word;
        self.offsets[i] = c.offset;
    }

    // A name given a value that is no pointer.
    #[tactic(auto, using(crate::proofs::Store::held_plain))]
    pub fn set_plain(&mut self, x: u64, kind: u8, word: u64)
        requires { (x < N) × (kind ≤ held) }
        ensures { store_in self.new ≡ upd NameIx-discrete (store_in self.old) (nm x) (some (plain_from kind word)) }
    {
        self.set_cell(
            x,
            Cell {
                kind,
                word,
                offset: 0,
            },
        );
    }

    // The value of a name: its type byte, its word, and a pointer's offset; the place behind it.
    pub fn put_value(&self, x: u64, out: &mut [u8], at: usize) -> usize
        requires { at + 17 < places }
        ensures { Wrote out.old out.new at result (value_bytes (value_in self.now x)) × (result ≤ at + 17) }
    {
        let c = self.get(x);
        write_bytes::put_u8(out, at, c.kind);
        if c.kind <= HELD {
            write_bytes::put_u64(out, at + 1, written_word(c.kind, c.word));
        } else {
            write_bytes::put_u64(out, at + 1, c.word);
            write_bytes::put_u64(out, at + 9, c.offset);
        }
        at + value_size(c.kind)
    }

    // ---- rows of names: n indexes of two bytes from a place of the record on, each read by its place, since bytes past the end count as 0
    // How many bytes their values have, if each is set.
    pub fn row_size(&self, s: &[u8], at: usize, n: u8) -> Option<usize>
        requires { at + 2 * n < places }
        ensures { (result ≡ size_of (read_all (store_in self.now) (row_from s.now at n))) × ((k : ℕ) → result ≡ Some k → k ≤ 17 * n) }
    {
        let mut size = 0;
        for i in 0..usize::from(n) {
            let kind = self.get(read_fields::be::<2>(s, at + 2 * i)).kind;
            if kind == NOTHING {
                return None;
            }
            size += value_size(kind);
        }
        Some(size)
    }

    // Their values one after the other; each is set.
    pub fn put_row(&self, s: &[u8], at: usize, n: u8, out: &mut [u8], to: usize)
        requires places { (at + 2 * n < places) × (to + 17 * n < places) }
        requires set { read_all (store_in self.now) (row_from s.now at n) ≢ none }
        ensures { RowWritten out.old out.new to (read_all (store_in self.now) (row_from s.now at n)) }
    {
        let mut q = to;
        for i in 0..usize::from(n) {
            q = self.put_value(read_fields::be::<2>(s, at + 2 * i), out, q);
        }
    }
}
