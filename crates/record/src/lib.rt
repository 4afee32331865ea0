// The types that the definitions of a function record and the code share.
#![tactic(auto)]

ghost use Rattle.std.specs.Prelude.{◌≡◌, ◌≤◌, [], ◌∷◌, Err, length, take};
ghost use Rattle.record.specs.declared.ConvertError.TheVariants.{Refused};
ghost use Rattle.record.specs.Answer.{Returned, number};
ghost use Rattle.record.specs.Versions.{convert_answer};

use arith::{One, Two};

mod code;

// The type bytes without a pointer, and the least of a pointer.
pub const INT: u8 = 0x00;

pub const BOOL: u8 = 0x01;

pub const FLOAT: u8 = 0x02;

pub const CHAR: u8 = 0x03;

pub const POINTER: u8 = 0x10;

// As many names, arguments and blocks as a record can have.
pub const NAMES: usize = 256;

pub const ARGS: u64 = 16;

pub const BLOCKS: usize = 64;

// The index of a name. Value numbers are another kind, ValNum of the crate numbering.
#[derive(Clone, Copy, PartialEq, Eq, Debug)]
pub struct NameIx(pub u16);

// A literal. The logic has one NaN and no contract can say which bits a NaN has, so the bits of a NaN stand in a variant of their own.
// No PartialEq: literals are equal by their bits, and `==` of floats takes 0 and -0 for the same.
#[derive(Clone, Copy, Debug)]
pub enum Literal {
    Int(i64),
    Bool(bool),
    Float(f64),
    Nan(u64),
    Char(u32),
}

// What an instruction does, by form: const; codes 1 to 14; codes 20 to 39, which give a new value each time; 67, 68, 70 and 71; nop, jmp, br and ret.
#[derive(Clone, Copy, PartialEq, Eq, Debug)]
pub enum Op {
    Const,
    One(One),
    Two(Two),
    New(u8),
    Effect(u8),
    Nop,
    Jmp,
    Br,
    Ret,
}

// Up to eight numbers: the arguments of an instruction, or its block numbers. ArrayVec would hold them too, but is not Copy.
// No PartialEq: what stands past the count is no part of the row.
#[derive(Clone, Copy, Debug)]
pub struct Row {
    pub items: [u16; 8],
    pub count: u8,
    ghost few: { count ≤ 8 },
}

impl Row {
    // These numbers.
    pub fn of<const N: usize>(xs: [u16; N]) -> Row
        requires { N ≤ 8 }
        ensures { take result.count result.items ≡ xs.entry }
    {
        let mut items = [0; 8];
        items[..N].copy_from_slice(&xs);
        Row {
            items,
            // as: N is at most 8.
            count: N as u8,
        }
    }

    // The numbers.
    pub fn as_slice(&self) -> &[u16]
        ensures { (result.now ≡ take self.now.count self.now.items) × (length result.now ≤ 8) }
    {
        &self.items[..usize::from(self.count)]
    }
}

// An instruction. Parts that its operation does not have are 0, and rows are empty.
#[derive(Clone, Copy, Debug)]
pub struct Instruction {
    pub id: u64,
    pub op: Op,
    pub dest: NameIx,
    pub literal: Literal,
    pub args: Row,
    pub callee: u16,
    pub blocks: Row,
}

// What follows an instruction's code: whether the code is known and stands last in its block, whether a literal and a destination follow,
// the fewest and the most arguments, whether a callee follows, and how many block numbers, or whether one for each argument.
// `blocks` is 0 where `each` holds, as in the definitions' table of shapes: an enum of the two would be looked through in every definition of a
// record's blocks, and say no more.
#[derive(Clone, Copy, PartialEq, Eq, Debug)]
pub struct Shape {
    pub known: bool,
    pub last: bool,
    pub literal: bool,
    pub dest: bool,
    pub few: u8,
    pub most: u8,
    pub callee: bool,
    pub blocks: u8,
    pub each: bool,
}

// What a record is read with: the most names, the longest text, the most instructions of a block, and whether made names may stand in it,
// so that reserved texts and nonzero saves pass.
#[derive(Clone, Copy, PartialEq, Eq, Debug)]
pub struct Limits {
    pub names: u64,
    pub text: u64,
    pub body: u64,
    pub made: bool,
}

// The reasons of check's refusals; specs/Answer.antt has their numbers.
#[derive(Clone, Copy, PartialEq, Eq, Debug)]
pub enum Refusal {
    Length,
    Version,
    Limit,
    Text,
    Code,
    Name,
    Types,
    Place,
}

// Document 01's number of a refusal.
impl From<Refusal> for u8 {
    ghost from_gives = { λ k n. n ≡ number k };

    #[tactic(auto, unfolding(crate::specs::Answer::number))]
    fn from(k: Refusal) -> u8 {
        match k {
            Refusal::Length => 1,
            Refusal::Version => 2,
            Refusal::Limit => 3,
            Refusal::Text => 4,
            Refusal::Code => 5,
            Refusal::Name => 6,
            Refusal::Types => 7,
            Refusal::Place => 8,
        }
    }
}

// The number of a program's own refusal, of an input that it does not take: none of check, rewrite, figures, name text and running answers so.
pub const OWN_REFUSAL: u8 = 10;

// The first fault of a record: the reason of the refusal, and the offset of the field.
#[derive(Clone, Copy, PartialEq, Eq, Debug)]
pub struct Fault {
    pub refusal: Refusal,
    pub offset: usize,
}

// Why an entry does nothing, in numbers. A run's refusal is no such: 14 goes with two values.
pub trait Refuses: Copy {
    // The answer: the number of the refusal, and the value that goes with it.
    ghost answer: { Self → Returned };

    // Its number.
    fn number(self) -> u8
        ensures { result ≡ (answer self).number };

    // The value that goes with it: the offset of the fault, or the bytes needed, or 0.
    fn value(self) -> usize
        ensures { (answer self).values ≡ result ∷ [] };
}

// Why widening or narrowing writes nothing: a refusal of check; an instruction, at this place, whose id has no room in the version that is wanted;
// or the output is too small for so many bytes.
#[derive(Clone, Copy, PartialEq, Eq, Debug)]
pub enum ConvertError {
    Refused(Fault),
    Wide(usize),
    Room(usize),
}

impl Refuses for ConvertError {
    ghost answer = { λ e. convert_answer (Err e) };

    #[tactic(auto, unfolding(crate::specs::Versions::convert_answer))]
    fn number(self) -> u8 {
        match self {
            ConvertError::Refused(f) => u8::from(f.refusal),
            ConvertError::Wide(_) => 15,
            ConvertError::Room(_) => 9,
        }
    }

    #[tactic(auto, unfolding(crate::specs::Versions::convert_answer))]
    fn value(self) -> usize {
        match self {
            ConvertError::Refused(f) => f.offset,
            ConvertError::Wide(at) => at,
            ConvertError::Room(n) => n,
        }
    }
}

impl From<Fault> for ConvertError {
    ghost from_gives = { λ f e. e ≡ Refused f };

    fn from(f: Fault) -> ConvertError {
        ConvertError::Refused(f)
    }
}
