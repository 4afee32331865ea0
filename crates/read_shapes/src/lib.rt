// What follows an instruction's code, and the tests and fields that go by it.
#![tactic(auto)]

ghost use Rattle.std.specs.Prelude.{◌≡◌, true, false, ◌<◌, ◌≤◌};
ghost use Rattle.arith.specs.Value.{scalar};
ghost use Rattle.record.specs.Reader.{field};
ghost use Rattle.record.specs.Shape.{unknown, const, value, effect, call, print, phi, terminator, targets, shape_of};
ghost use Rattle.record.specs.Decode.{count_from};
ghost use Rattle.record.specs.Tests.{code_test, count_test, literal_test};
ghost use Rattle.read_fields.specs.Answer.{res};

use read_fields::{Num, Test};
use record::{BOOL, FLOAT, INT, Refusal, Shape};

// ---- the kinds of shape
// That of an unknown code, of which nothing follows: what each other shape differs from. It is a shape and no None, since the definitions
// take the shape of any code, and behind check an Option would be opened everywhere. `each` is false beside a number of blocks for the same
// reason: the definitions' shape has both.
fn unknown() -> Shape
    ensures { result ≡ unknown }
{
    Shape {
        known: false,
        last: false,
        literal: false,
        dest: false,
        few: 0,
        most: 0,
        callee: false,
        blocks: 0,
        each: false,
    }
}

// A value code with n arguments.
fn value(n: u8) -> Shape
    ensures { result ≡ value n }
{
    Shape {
        known: true,
        dest: true,
        few: n,
        most: n,
        ..unknown()
    }
}

// An effect code with n arguments.
fn effect(n: u8) -> Shape
    ensures { result ≡ effect n }
{
    Shape {
        dest: false,
        ..value(n)
    }
}

// print, with up to eight arguments.
fn print() -> Shape
    ensures { result ≡ print }
{
    Shape {
        most: 8,
        ..effect(0)
    }
}

// A call with a dest or without one.
fn call(dest: bool) -> Shape
    ensures { result ≡ call dest }
{
    Shape {
        dest,
        callee: true,
        ..print()
    }
}

// phi, with up to eight arguments and a block number for each.
fn phi() -> Shape
    ensures { result ≡ phi }
{
    Shape {
        dest: true,
        each: true,
        ..print()
    }
}

// The fewest and the most arguments of jmp, br or ret, and its block numbers.
fn terminator(few: u8, most: u8, blocks: u8) -> Shape
    ensures { result ≡ terminator few most blocks }
{
    Shape {
        known: true,
        last: true,
        few,
        most,
        blocks,
        ..unknown()
    }
}

// const, whose literal follows its dest.
fn constant() -> Shape
    ensures { result ≡ const }
{
    Shape {
        literal: true,
        ..value(0)
    }
}

// ---- the shape of a code, by the parts of the table. One match of all its rows is slower: measured as plain Rust, check took 1.14 times the time
// on 64 blocks of 256 instructions and 1.24 times on 16 of 16, and no row of the benchmark may get slower
// add to ptradd: not and id have one argument, the others two.
#[tactic(auto, unfolding(record::specs::Shape::shape_of))]
fn pure_shape(code: u64) -> Shape
    requires { (1 ≤ code) × (code ≤ 14) }
    ensures { result ≡ shape_of code }
{
    match code {
        0..=9 => value(2),
        10 => value(1),
        11..=12 => value(2),
        13 => value(1),
        _ => value(2),
    }
}

// What is new each time: call; fadd to cge; char2int to load; phi.
#[tactic(auto, unfolding(record::specs::Shape::shape_of))]
fn new_shape(code: u64) -> Shape
    requires { (20 ≤ code) × (code ≤ 39) }
    ensures { result ≡ shape_of code }
{
    match code {
        0..=20 => call(true),
        21..=34 => value(2),
        35..=38 => value(1),
        _ => phi(),
    }
}

// jmp, br and ret.
#[tactic(auto, unfolding(record::specs::Shape::shape_of))]
fn end_shape(code: u64) -> Shape
    requires { (64 ≤ code) × (code ≤ 66) }
    ensures { result ≡ shape_of code }
{
    match code {
        64 => terminator(0, 0, 1),
        65 => terminator(1, 1, 2),
        _ => terminator(0, 1, 0),
    }
}

// The terminators; then call, print, nop, store and free.
#[tactic(auto, unfolding(record::specs::Shape::shape_of))]
fn effect_shape(code: u64) -> Shape
    requires { (64 ≤ code) × (code ≤ 71) }
    ensures { result ≡ shape_of code }
{
    match code {
        0..=66 => end_shape(code),
        67 => call(false),
        68 => print(),
        69 => effect(0),
        70 => effect(2),
        _ => effect(1),
    }
}

// const; add to ptradd; what is new each time; the terminators and the effects; all others are unknown.
#[tactic(auto, unfolding(record::specs::Shape::shape_of))]
pub fn shape_of(code: u64) -> Shape
    ensures { result ≡ shape_of code }
{
    match code {
        0 => constant(),
        1..=14 => pure_shape(code),
        15..=19 => unknown(),
        20..=39 => new_shape(code),
        40..=63 => unknown(),
        64..=71 => effect_shape(code),
        _ => unknown(),
    }
}

// ---- how many arguments and block numbers follow
// The arguments, where their count would stand at a place.
pub fn count_from(sh: Shape, s: &[u8], at: usize) -> u64
    ensures { (result ≡ count_from sh s.now at) × (result < 256) }
{
    if sh.literal {
        0
    } else {
        read_fields::byte_or(s, at)
    }
}

// The block numbers behind n arguments.
pub fn targets(sh: Shape, n: u64) -> u64
    ensures { (result ≡ targets sh n) × (n < 256 → result < 256) }
{
    if sh.each { n } else { u64::from(sh.blocks) }
}

// ---- tests
// An unknown code; then jmp, br or ret before the last place.
#[tactic(auto, unfolding(record::specs::Tests::code_test))]
pub fn code_test(last: bool, code: u64) -> Test
    ensures { result ≡ code_test last code }
{
    let sh = shape_of(code);
    if sh.known {
        return read_fields::need(last || !sh.last, Refusal::Place);
    }
    Err(Refusal::Code)
}

// As many arguments as the shape has.
#[tactic(auto, unfolding(record::specs::Tests::count_test))]
pub fn count_test(sh: Shape, n: u64) -> Test
    ensures { result ≡ count_test sh n }
{
    read_fields::need(
        u64::from(sh.few) <= n && n <= u64::from(sh.most),
        Refusal::Limit,
    )
}

// A Unicode scalar value.
pub fn scalar(x: u64) -> bool
    ensures { result ≡ scalar x }
{
    x < 0xD800 || (0xE000..=0x10FFFF).contains(&x)
}

// Ints and floats are any bits, a bool is 0 or 1, a char a scalar value. A kind is a number that was read; one that is none of the four is tested
// as a char, as the definition has it.
#[tactic(auto, unfolding(record::specs::Tests::literal_test))]
pub fn literal_test(kind: u64, x: u64) -> Test
    ensures { result ≡ literal_test kind x }
{
    match u8::try_from(kind) {
        Ok(INT | FLOAT) => Ok(()),
        Ok(BOOL) => read_fields::at_most(1, x),
        _ => read_fields::need(scalar(x), Refusal::Limit),
    }
}

// ---- fields
// An instruction's code, in the last place of its block or before it.
pub fn code_at(s: &[u8], at: usize, last: bool) -> Num
    ensures { res result ≡ field 1 (code_test last) s.now at }
{
    read_fields::field_tested::<1, _>(s, at, |x| code_test(last, x))
}

// An argument count.
pub fn count_at(s: &[u8], at: usize, sh: Shape) -> Num
    ensures { res result ≡ field 1 (count_test sh) s.now at }
{
    read_fields::field_tested::<1, _>(s, at, |x| count_test(sh, x))
}

// The bits of a literal of this kind.
pub fn bits_at(s: &[u8], at: usize, kind: u64) -> Num
    ensures { res result ≡ field 8 (literal_test kind) s.now at }
{
    read_fields::field_tested::<8, _>(s, at, |x| literal_test(kind, x))
}
