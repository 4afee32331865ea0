// The table of numbered values: of each number a head, which holds the operator and the operands, and a constant.
#![tactic(auto)]

ghost use Rattle.std.specs.Prelude.{◌≡◌, ◌+◌, ◌<◌, ◌≤◌, length, get_or};
ghost use Rattle.std.proofs.Math.Option.{some};
ghost use Rattle.arith.specs.Map.{upd};
ghost use Rattle.arith.specs.Operation.{Expr, constant};
ghost use Rattle.numbering.specs.declared.ValNum.{ValNum};
ghost use Rattle.numbering.specs.State.{State, vn, ValNum-discrete, known_expr};
ghost use Rattle.numbering.specs.Number.{find};
ghost use Rattle.numbering.specs.View.{val_of, expr_of};
ghost use Rattle.lvn_simplify.specs.View.{known_of};
ghost use Rattle.lvn_values.specs.Table.{packed, head_of, num_of, expr_at, vals_of, holds, numbered_of, val_num_of};

use arith::One;
use numbering::{Constant, ValNum, Value};

// So many numbers a block may need, one for each name and each instruction.
pub const NUMBERS: usize = 512;

// The heads of constants: their tags stand behind those of the operators, which are their codes.
const INT: u64 = 15 * 0x1_0000_0000;

const INT_AS_FLOAT: u64 = 16 * 0x1_0000_0000;

const BOOL: u64 = 17 * 0x1_0000_0000;

// What stands in the table for a value: two words, and no Value, so that the search compares one word with the words of all numbers, several at
// once (DECISIONS 37).
#[derive(Clone, Copy, PartialEq, Eq, Debug)]
pub struct Entry {
    pub head: u64,
    pub num: u64,
}

impl Entry {
    // Of the operator with this code and its operands.
    pub fn operation(code: u8, a: ValNum, b: ValNum) -> Self
        ensures { (result ≡ record { head = packed code a.0 b.0; num = 0 }) × ((a.0 < 65536) × (b.0 < 65536)) }
    {
        Entry {
            head: u64::from(code) * 0x1_0000_0000 + u64::from(a.0) * 0x1_0000 + u64::from(b.0),
            num: 0,
        }
    }

    // Of a constant.
    pub fn constant(c: Constant) -> Self
        ensures { result ≡ record { head = head_of (constant (val_of c)); num = num_of (constant (val_of c)) } }
    {
        match c {
            Constant::Int(w) => Entry { head: INT, num: w },
            Constant::IntAsFloat(w) => Entry {
                head: INT_AS_FLOAT,
                num: w,
            },
            Constant::Bool(b) => Entry {
                head: BOOL,
                num: u64::from(b),
            },
        }
    }

    // Of a value. One that is new each time has zeros, which no value that is numbered has: the table has to hold something for its number,
    // and an Option would be turned into zeros there again.
    pub fn of(v: Value) -> Self
        ensures { expr_at result.head result.num ≡ expr_of v }
    {
        match v {
            Value::Unique => Entry { head: 0, num: 0 },
            Value::Constant(c) => Entry::constant(c),
            Value::One(o, a) => Entry::operation(u8::from(o), a, ValNum(0)),
            Value::Two(o, a, b) => Entry::operation(u8::from(o), a, b),
        }
    }

    // What is known of the number that an entry stands for.
    #[tactic(auto, using(crate::proofs::Entries::known_int, crate::proofs::Entries::known_word, crate::proofs::Entries::known_none))]
    pub fn known(self) -> Option<Constant>
        ensures { known_of result ≡ known_expr (expr_at self.head self.num) }
    {
        match self.head {
            INT => Some(Constant::Int(self.num)),
            BOOL if self.num <= 1 => Some(Constant::Bool(self.num == 1)),
            _ => None,
        }
    }
}

// The entries of the first count numbers, of which there can be N. Two arrays, since holds goes over the heads alone, or over the constants
// alone. One array of entries was measured and is as quick, but over it holds would stand twice, for the heads and for the constants, or want a
// closure that picks the part; and the two share one count.
// No PartialEq: what stands from count on is no part of the table.
#[derive(Clone, Copy)]
pub struct Values<const N: usize> {
    heads: [u64; N],
    nums: [u64; N],
    count: u16,
    ghost few: { count ≤ N },
}

// Whether x is one of these numbers. The loop has no other end, so that several are compared at once: `contains`, which ends at the first, took
// a tenth longer over numbers that do not have it.
#[tactic(auto, using(crate::proofs::Held::held_next, crate::proofs::Held::held_last))]
pub fn holds(l: &[u64], x: u64) -> bool
    ensures { result ≡ holds l.now x 0 (length l.now) }
{
    let mut hit = false;
    for y in l {
        hit |= *y == x;
    }
    hit
}

impl<const N: usize> Values<N> {
    // With no number.
    pub fn new() -> Self
        ensures { result.count ≡ 0 }
    {
        Values {
            heads: [0; N],
            nums: [0; N],
            count: 0,
        }
    }

    // No number any more. Entries from count on are not seen, so they may stay.
    pub fn clear(&mut self)
        ensures { self.new.count ≡ 0 }
    {
        self.count = 0;
    }

    // How many numbers have an entry: the next number.
    pub fn count(&self) -> u16
        ensures { (result ≡ self.now.count) × (result ≤ N) }
    {
        self.count
    }

    // The next number gets the entry of v.
    pub fn push(&mut self, v: Value)
        requires { (self.old.count < N) × (self.old.count < 65535) }
        ensures { (self.new.count ≡ self.old.count + 1) ×
            (vals_of self.new.heads self.new.nums self.new.count ≡
            upd ValNum-discrete (vals_of self.old.heads self.old.nums self.old.count) (vn self.old.count) (expr_of v)) }
    {
        let e = Entry::of(v);
        let k = usize::from(self.count);
        self.heads[k] = e.head;
        self.nums[k] = e.num;
        self.count += 1;
    }

    // The entry of a number that has one.
    fn entry(&self, i: u16) -> Entry
        requires { i < self.now.count }
        ensures { result ≡ record { head = get_or self.now.heads i 0; num = get_or self.now.nums i 0 } }
    {
        let k = usize::from(i);
        Entry {
            head: self.heads[k],
            num: self.nums[k],
        }
    }

    // What is known of a number.
    pub fn known(&self, v: ValNum) -> Option<Constant>
        ensures { known_of result ≡ known_expr (vals_of self.now.heads self.now.nums self.now.count v) }
    {
        if v.0 >= self.count {
            return None;
        }
        self.entry(v.0).known()
    }

    // The first of the numbers that has this entry. By find over the range it was tried: the closure wants a contract that is longer than this loop.
    pub fn find(&self, e: Entry) -> Option<ValNum>
        ensures { (x : Expr ValNum) → expr_at e.head e.num ≡ some x →
            numbered_of result ≡ find (vals_of self.now.heads self.now.nums self.now.count) x 0 self.now.count }
    {
        for i in 0..self.count {
            if self.entry(i) == e {
                return Some(ValNum(i));
            }
        }
        None
    }

    // The first of the numbers that has this entry; none, where its head, or its constant, stands nowhere.
    #[tactic(auto, using(crate::proofs::Held::no_head, crate::proofs::Held::no_num))]
    pub fn look_up(&self, e: Entry) -> Option<ValNum>
        ensures { (x : Expr ValNum) → expr_at e.head e.num ≡ some x →
            numbered_of result ≡ find (vals_of self.now.heads self.now.nums self.now.count) x 0 self.now.count }
    {
        let n = usize::from(self.count);
        let there = if e.num == 0 {
            holds(&self.heads[..n], e.head)
        } else {
            holds(&self.nums[..n], e.num)
        };
        if there { self.find(e) } else { None }
    }

    // The number of a value: an id's is its operand's, and one that is new each time has none.
    pub fn get_val_num(&self, v: Value) -> Option<ValNum>
        ensures { (s : State) → s.vals ≡ vals_of self.now.heads self.now.nums self.now.count → s.next ≡ self.now.count →
            numbered_of result ≡ val_num_of s (expr_of v) }
    {
        match v {
            Value::Unique => None,
            Value::One(One::Id, a) => Some(a),
            _ => self.look_up(Entry::of(v)),
        }
    }
}
