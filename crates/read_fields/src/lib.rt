// Fields of a record: the reader, their numbers, the tests of them, and the fields that more than one part of a record has.
#![tactic(auto)]

ghost use Rattle.std.specs.Prelude.{◌≡◌, true, cond, ◌+◌, ◌-◌, ◌%◌, ◌^◌, ◌<◌, ◌≤◌, length, get_or, leb};
ghost use Rattle.record.specs.Record.{nm, type_in};
ghost use Rattle.record.specs.Reader.{got, then, num_at, field, judge, times};
ghost use Rattle.record.specs.Tests.{need, any, at_most, below};
ghost use Rattle.record.specs.Answer.{fault_at, verdict};
ghost use Rattle.read_fields.specs.Answer.{res, Tests};
ghost use Rattle.read_fields.specs.Opens.{opens, longest_form};
ghost use Rattle.read_fields.specs.Places.{places};

use record::{CHAR, Fault, Refusal};

// A field's number and the place behind it, or why it is refused.
pub type Num = Result<(u64, usize), Fault>;

// Where reading goes on, or why it stops.
pub type Next = Result<usize, Fault>;

// What a test says of a field's number: it passes, or why it is refused.
pub type Test = Result<(), Refusal>;

// ---- numbers of bytes that are there, the first byte the greatest
// N ≤ 8 is asked by each function that takes N: they have no struct in common whose ghost field could say it once.

// The number of N bytes. By an index: the loop over &s[at..at + N] was tried, and its bounds did not prove, since the contract allows no bytes
// (N is 0) at a place past the end. The closure of a fold would have to say in a contract of its own how great the number is so far, which is what
// the loop's invariant says.
pub fn number_of<const N: usize>(s: &[u8], at: usize) -> u64
    requires { (N ≤ 8) × (N ≤ length s.now - at) }
    ensures { (result ≡ num_at s.now at N) × (result < 256 ^ N) }
{
    let mut x = 0;
    for i in 0..N {
        x = x * 256 + u64::from(s[at + i]);
    }
    x
}

// How many bytes stand from a place to the end.
pub fn left(s: &[u8], at: usize) -> usize
    ensures { result ≡ length s.now - at }
{
    s.len().saturating_sub(at)
}

// ---- the record reader
// A lent record and the place at which it is read: the reader that document 01 asks for (docs/DECISIONS.md 31). Every field whose number is
// looked at is read through it. The functions below take s and at as the definitions' readers do, and each goes on at the place that the one
// before it gave: a reader to pass would be made anew for each.
#[derive(Drop)]
pub struct Reader<'a> {
    pub src: &'a [u8],
    pub at: usize,
}

impl<'a> Reader<'a> {
    // A reader of src at a place.
    pub fn new(src: &'a [u8], at: usize) -> Reader<'a>
        ensures { (result.src ≡ src.entry) × (result.at ≡ at) }
    {
        Reader { src, at }
    }

    // The field of N bytes that stands here; refused where it runs past the end.
    pub fn field<const N: usize>(self) -> Num
        requires { N ≤ 8 }
        ensures { res result ≡ field N any self.entry.src.now self.entry.at }
    {
        if left(self.src, self.at) < N {
            return Err(fault(Refusal::Length, self.at));
        }
        Ok((number_of::<N>(self.src, self.at), self.at + N))
    }
}

// ---- fields whose number may be any: refused where they run past the end
// A field of N bytes.
pub fn field_at<const N: usize>(s: &[u8], at: usize) -> Num
    requires { N ≤ 8 }
    ensures { res result ≡ field N any s.now at }
{
    Reader::new(s, at).field::<N>()
}

// A field of w bytes whose number is not looked at.
pub fn skip_at(s: &[u8], at: usize, w: usize) -> Next
    ensures { result ≡ verdict (field w any s.now at) }
{
    if left(s, at) < w {
        return Err(fault(Refusal::Length, at));
    }
    Ok(at + w)
}

// ---- numbers of fields whose bytes past the end count as 0
// The byte at a place, 0 past the end.
pub fn u8_at(s: &[u8], at: usize) -> u8
    ensures { result ≡ get_or s.now at 0 }
{
    s.get(at).map_or(0, |b| *b)
}

// That byte, as the numbers of other fields are given.
pub fn byte_or(s: &[u8], at: usize) -> u64
    ensures { (result ≡ get_or s.now at 0) × (result < 256) }
{
    u64::from(u8_at(s, at))
}

// That all bytes have a place is asked at each call, here and by each reader above: how many are read behind a place is another number each
// time, so that no type of places could say it.

// The number of N bytes; bytes past the end count as 0. What lies within is read without a test for each byte; else by an index, since some
// bytes are past the end, and by no fold, as number_of.
pub fn be<const N: usize>(s: &[u8], at: usize) -> u64
    requires { (N ≤ 8) × (at + N ≤ places) }
    ensures { (result ≡ num_at s.now at N) × (result < 256 ^ N) }
{
    if N <= left(s, at) {
        return number_of::<N>(s, at);
    }
    let mut x = 0;
    for i in 0..N {
        x = x * 256 + byte_or(s, at + i);
    }
    x
}

// Of two bytes, whose type says that the number fits.
pub fn u16_at(s: &[u8], at: usize) -> u16
    requires { at + 2 ≤ places }
    ensures { result ≡ num_at s.now at 2 }
{
    be::<2>(s, at) as u16
}

// ---- the head of a form
// Whether a form of at least so many bytes opens with its length, which counts what follows it, and with this version.
pub fn opens(s: &[u8], shortest: usize, version: u64) -> bool
    ensures { (result ≡ opens shortest version s.now) × (result ≡ true → length s.now < longest_form) }
{
    // as: u64 and usize have no From; try_from would give an error that cannot happen.
    shortest <= s.len() && be::<4>(s, 0) == left(s, 4) as u64 && byte_or(s, 4) == version
}

// ---- tables
// The type of the name with this index, by the types of all names; 0 past the last.
#[tactic(auto, unfolding(record::specs::Record::type_in))]
pub fn type_of(types: &[u8], x: u64) -> u8
    ensures { result ≡ type_in types.now (nm x) }
{
    // as: u64 and usize have no From; try_from would give an error that cannot happen.
    u8_at(types, x as usize)
}

// ---- places
// The place behind n bytes that are there or not, as a shape says by a bool.
pub fn past_if(there: bool, at: usize, n: usize) -> usize
    requires { at + n < places }
    ensures { (result ≡ cond there (at + n) at) × (result ≤ at + n) }
{
    if there { at + n } else { at }
}

// ---- tests of a number
// A test that passes where the condition holds.
pub fn need(holds: bool, k: Refusal) -> Test
    ensures { result ≡ need holds k }
{
    if holds { Ok(()) } else { Err(k) }
}

// At most so much.
#[tactic(auto, unfolding(record::specs::Tests::at_most))]
pub fn at_most(most: u64, x: u64) -> Test
    ensures { result ≡ at_most most x }
{
    need(x <= most, Refusal::Limit)
}

// The number of one of n names or blocks.
#[tactic(auto, unfolding(record::specs::Tests::below))]
pub fn below(n: u64, x: u64) -> Test
    ensures { result ≡ below n x }
{
    need(x < n, Refusal::Name)
}

// Whether a byte is a type: its low half is that of int, bool, float or char.
pub fn is_type(x: u64) -> bool
    ensures { result ≡ leb (x % 16) 3 }
{
    x % 16 <= u64::from(CHAR)
}

// A refusal at a place.
pub fn fault(refusal: Refusal, offset: usize) -> Fault
    ensures { result ≡ fault_at refusal offset }
{
    Fault { refusal, offset }
}

// A field that was read at a place, and the test t of its number. Inlined, since the place behind a field would else wait for its test.
#[inline(always)]
pub fn tested(n: Num, t: Test, at: usize) -> Num
    ensures { res result ≡ then (res n) (λ x p. judge t at (got x p)) }
{
    let (x, p) = n?;
    t.map_err(|k| fault(k, at))?;
    Ok((x, p))
}

// Where a field ends, its number forgotten.
pub fn verdict(n: Num) -> Next
    ensures { result ≡ verdict (res n) }
{
    n.map(|(_, p)| p)
}

// A field of N bytes whose number the closure tests. Where it answers to each number as a test t of the definitions does, this is the definitions'
// field with that test.
#[inline(always)]
pub fn field_tested<const N: usize, F: FnOnce(u64) -> Test>(s: &[u8], at: usize, test: F) -> Num
    requires { (N ≤ 8) × F.IsAlwaysCallable test }
    ensures { (t : _) → Tests (F.post test) t → res result ≡ field N t s.now at }
{
    let (x, p) = field_at::<N>(s, at)?;
    tested(Ok((x, p)), test(x), at)
}

// ---- fields that several parts of a record have
// A field of N bytes whose number is at most `most`.
pub fn limited<const N: usize>(s: &[u8], at: usize, most: u64) -> Num
    requires { N ≤ 8 }
    ensures { res result ≡ field N (at_most most) s.now at }
{
    field_tested::<N, _>(s, at, |x| at_most(most, x))
}

// A name or block number, one of n.
pub fn index_at(s: &[u8], at: usize, n: u64) -> Next
    ensures { result ≡ verdict (field 2 (below n) s.now at) }
{
    verdict(field_tested::<2, _>(s, at, |x| below(n, x)))
}

// A row of such numbers. A loop of n steps each of which may refuse stands in check_blocks too: by a function over a closure each would still say
// what its own step comes to.
pub fn indexes_at(s: &[u8], at: usize, count: u64, n: u64) -> Next
    ensures { result ≡ verdict (times count (λ left. field 2 (below n)) s.now at) }
{
    let mut p = at;
    for _ in 0..count {
        p = index_at(s, p, n)?;
    }
    Ok(p)
}
