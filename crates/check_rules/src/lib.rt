// The rules of the codes for the types of an instruction's names, and whether an instruction keeps to the rule of its code.
// All reads are total, 0 past the end.
#![tactic(auto)]

ghost use Rattle.std.specs.Prelude.{◌≡◌, true, false, map, replicate, ◌+◌, ◌*◌, ◌<◌, ◌≤◌, get_or};
ghost use Rattle.record.specs.Record.{nm, type_in};
ghost use Rattle.record.specs.Typing.{fits_dest, copies, shifts, allocates, loads, joins, stores, frees, branches, takes, points_to, each_is, well_typed};
ghost use Rattle.record.specs.Decode.{items, two_on, index_from, instr_from};
ghost use Rattle.read_fields.specs.Places.{places};
ghost use Rattle.check_rules.specs.Rules.{rule, code_rule, args_from, joins_reach, Kept};

use record::{BOOL, CHAR, FLOAT, INT, POINTER};

mod operands;

pub use operands::Operands;

// What a code asks of the types of its dest and its arguments. Takes(n, a, d): n arguments of type a, a dest of type d; types are bytes.
#[derive(Clone, Copy, PartialEq, Eq, Debug)]
pub enum Rule {
    Free,
    FitsDest,
    Copies,
    Shifts,
    Allocates,
    Loads,
    Joins,
    Stores,
    Frees,
    Branches,
    Takes(u8, u8, u8),
}

// The rule of a code, by its number as the record has it, as read_shapes::shape_of: an Op would be made of it first, at each instruction, and has
// no names for the codes 20 to 39.
#[tactic(auto, unfolding(crate::specs::Rules::code_rule))]
pub fn rule_of(code: u64) -> Rule
    ensures { rule result ≡ code_rule code }
{
    match code {
        0 => Rule::FitsDest,
        1..=4 => Rule::Takes(2, INT, INT),
        5..=9 => Rule::Takes(2, INT, BOOL),
        10 => Rule::Takes(1, BOOL, BOOL),
        11..=12 => Rule::Takes(2, BOOL, BOOL),
        13 => Rule::Copies,
        14 => Rule::Shifts,
        21..=24 => Rule::Takes(2, FLOAT, FLOAT),
        25..=29 => Rule::Takes(2, FLOAT, BOOL),
        30..=34 => Rule::Takes(2, CHAR, BOOL),
        35 => Rule::Takes(1, CHAR, INT),
        36 => Rule::Takes(1, INT, CHAR),
        37 => Rule::Allocates,
        38 => Rule::Loads,
        39 => Rule::Joins,
        65 => Rule::Branches,
        70 => Rule::Stores,
        71 => Rule::Frees,
        _ => Rule::Free,
    }
}

// Whether p is the type of a pointer to type t.
fn points_to(p: u8, t: u8) -> bool
    ensures { result ≡ points_to p t }
{
    p.checked_sub(POINTER) == Some(t)
}

impl<'a> Operands<'a> {
    // ---- what stands at a place
    // A byte: a count, or the kind of a literal.
    fn byte(&self, at: usize) -> u8
        ensures { result ≡ get_or self.now.bytes.now at 0 }
    {
        read_fields::u8_at(self.bytes, at)
    }

    // The type of the name whose index stands there.
    #[tactic(auto, unfolding(record::specs::Decode::index_from))]
    pub fn index_type(&self, at: usize) -> u8
        requires { at + 1 < places }
        ensures { result ≡ type_in self.now.types.now (index_from self.now.bytes.now at) }
    {
        read_fields::type_of(self.types, read_fields::be::<2>(self.bytes, at))
    }

    // The type of argument k, where the arguments' count stands there; that of name 0 where there is no such argument.
    #[tactic(auto, using(crate::proofs::Laws::arg_there, crate::proofs::Laws::arg_past))]
    pub fn arg_type(&self, at: usize, k: usize) -> u8
        requires { at + 2 * k + 2 < places }
        ensures { result ≡ type_in self.now.types.now (get_or (args_from self.now.bytes.now at) k (nm 0)) }
    {
        if k < usize::from(self.byte(at)) {
            return self.index_type(at + 1 + 2 * k);
        }
        read_fields::type_of(self.types, 0)
    }

    // Whether each of the n names whose indexes stand from there on is of type t.
    fn each_is(&self, at: usize, n: u8, t: u64) -> bool
        requires { at + 2 * n ≤ places }
        ensures { result ≡ each_is t (map (type_in self.now.types.now) (items (index_from self.now.bytes.now) two_on at n)) }
    {
        (0..usize::from(n)).all(|k| u64::from(self.index_type(at + 2 * k)) == t)
    }

    // ---- the rules
    // A literal fits its own type, an int literal also float.
    #[tactic(auto, using(crate::proofs::Laws::kept_fits))]
    pub fn fits_dest(&self) -> bool
        ensures { Kept result fits_dest true true self.now }
    {
        let kind = self.byte(self.at + 2);
        let t = self.index_type(self.at);
        t == kind || (kind == INT && t == FLOAT)
    }

    // Dest and argument have one type.
    #[tactic(auto, using(crate::proofs::Laws::kept_copies))]
    pub fn copies(&self) -> bool
        ensures { Kept result copies true false self.now }
    {
        self.index_type(self.at) == self.arg_type(self.at + 2, 0)
    }

    // A pointer and an int give a pointer of the same type.
    #[tactic(auto, using(crate::proofs::Laws::kept_shifts))]
    pub fn shifts(&self) -> bool
        ensures { Kept result shifts true false self.now }
    {
        let p = self.arg_type(self.at + 2, 0);
        let n = self.arg_type(self.at + 2, 1);
        let t = self.index_type(self.at);
        POINTER <= p && n == INT && t == p
    }

    // An int gives a pointer.
    #[tactic(auto, using(crate::proofs::Laws::kept_allocates))]
    pub fn allocates(&self) -> bool
        ensures { Kept result allocates true false self.now }
    {
        let n = self.arg_type(self.at + 2, 0);
        let t = self.index_type(self.at);
        n == INT && POINTER <= t
    }

    // A pointer gives what it points to.
    #[tactic(auto, using(crate::proofs::Laws::kept_loads))]
    pub fn loads(&self) -> bool
        ensures { Kept result loads true false self.now }
    {
        points_to(self.arg_type(self.at + 2, 0), self.index_type(self.at))
    }

    // phi: each argument has dest's type. There are as many as one byte can count.
    #[tactic(auto, using(crate::proofs::Laws::kept_joins))]
    pub fn joins(&self) -> bool
        requires { self.now.at + joins_reach < places }
        ensures { Kept result joins true false self.now }
    {
        let n = self.byte(self.at + 2);
        self.each_is(self.at + 2 + 1, n, u64::from(self.index_type(self.at)))
    }

    // A pointer and what it points to; no dest stands before the arguments.
    #[tactic(auto, using(crate::proofs::Laws::kept_stores))]
    pub fn stores(&self) -> bool
        ensures { Kept result stores false false self.now }
    {
        points_to(self.arg_type(self.at, 0), self.arg_type(self.at, 1))
    }

    // A pointer.
    #[tactic(auto, using(crate::proofs::Laws::kept_frees))]
    pub fn frees(&self) -> bool
        ensures { Kept result frees false false self.now }
    {
        POINTER <= self.arg_type(self.at, 0)
    }

    // A bool.
    #[tactic(auto, using(crate::proofs::Laws::kept_branches))]
    pub fn branches(&self) -> bool
        ensures { Kept result branches false false self.now }
    {
        self.arg_type(self.at, 0) == BOOL
    }

    // n arguments of type a, a dest of type d. a and d are u64, though a type is a byte: the promise is for any numbers, and bytes would ask more.
    #[tactic(auto, using(crate::proofs::Laws::kept_takes))]
    pub fn takes(&self, n: u8, a: u64, d: u64) -> bool
        requires { self.now.at + 2 * n + 3 ≤ places }
        ensures { Kept result (takes (replicate n a) d) true false self.now }
    {
        let count = self.byte(self.at + 2);
        let args = self.each_is(self.at + 2 + 1, n, a);
        let t = u64::from(self.index_type(self.at));
        count == n && args && t == d
    }
}

// Whether the instruction at a place keeps to the rule of its code; w: the bytes of an id. A match, since a rule may have types of its own,
// which a table of functions could not hand on.
pub fn typed_at(s: &[u8], types: &[u8], w: usize, at: usize) -> bool
    requires { (w ≤ 8) × (at + 9 + joins_reach < places) }
    ensures { result ≡ well_typed (type_in types.now) (instr_from w s.now at) }
{
    let operands = Operands {
        bytes: s,
        types,
        at: at + w + 1,
    };
    match rule_of(read_fields::byte_or(s, at + w)) {
        Rule::Free => true,
        Rule::FitsDest => operands.fits_dest(),
        Rule::Copies => operands.copies(),
        Rule::Shifts => operands.shifts(),
        Rule::Allocates => operands.allocates(),
        Rule::Loads => operands.loads(),
        Rule::Joins => operands.joins(),
        Rule::Stores => operands.stores(),
        Rule::Frees => operands.frees(),
        Rule::Branches => operands.branches(),
        Rule::Takes(n, a, d) => operands.takes(n, u64::from(a), u64::from(d)),
    }
}
