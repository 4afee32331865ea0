// The check of names: a type, a text's length and the text of each. The texts of the names before one are the texts that the definition
// has seen.
#![tactic(auto)]

ghost use Rattle.std.specs.Prelude.{◌≡◌, not, ◌||◌, [], ◌<◌, ◌≤◌, length};
ghost use Rattle.record.specs.Reader.{field, text};
ghost use Rattle.record.specs.Text.{reserved};
ghost use Rattle.record.specs.Tests.{type_test, text_length_test, text_test};
ghost use Rattle.record.specs.Read.{name, names};
ghost use Rattle.record.specs.Answer.{verdict};
ghost use Rattle.read_fields.specs.Answer.{res};
ghost use Rattle.record.specs.Decode.{behind, name_from, name_end};
ghost use Rattle.read_layout.specs.Layout.{texts_from};
ghost use Rattle.check_names.specs.Marks.{mark};

use check_texts::Before;
use read_fields::{Next, Num, Test, fault, field_tested};
use record::{Limits, Refusal};

// ---- a name's type and its text's length
// A type whose low half is above 3 is refused.
#[tactic(auto, unfolding(record::specs::Tests::type_test))]
pub fn type_test(x: u64) -> Test
    ensures { result ≡ type_test x }
{
    read_fields::need(read_fields::is_type(x), Refusal::Limit)
}

// A length of 0 or over the longest is refused.
#[tactic(auto, unfolding(record::specs::Tests::text_length_test))]
pub fn text_length_test(most: u64, n: u64) -> Test
    ensures { result ≡ text_length_test most n }
{
    read_fields::need((1..=most).contains(&n), Refusal::Limit)
}

// The field of a type.
pub fn type_field(s: &[u8], at: usize) -> Num
    ensures { res result ≡ field 1 type_test s.now at }
{
    field_tested::<1, _>(s, at, |x| type_test(x))
}

// The field of a text's length, which is at most `most`.
pub fn text_length_at(s: &[u8], at: usize, most: u64) -> Num
    ensures { res result ≡ field 1 (text_length_test most) s.now at }
{
    field_tested::<1, _>(s, at, |x| text_length_test(most, x))
}

// ---- a name's text
// Whether the text may stand in a record: reserved texts may where made names may.
pub fn may_stand(made: bool, text: &[u8]) -> bool
    ensures { result ≡ (made || not (reserved text.now)) }
{
    made || !check_texts::reserved(text)
}

// lim, s and before go together through text_test, text_at and name_at alone: a struct of the three would be made for each name.

// The text is refused where it is malformed, reserved, or the text of one of the names before.
pub fn text_test(lim: Limits, s: &[u8], before: Before, text: &[u8]) -> Test
    requires { behind (name_end s.now) before.from before.count ≤ length s.now }
    ensures { result ≡ text_test lim.made (texts_from s.now before.from before.count) text.now }
{
    let stands = check_texts::well_formed(text) && may_stand(lim.made, text);
    read_fields::need(
        stands && !check_texts::used_in(s, before, text),
        Refusal::Text,
    )
}

// The field of the text at t: past the end of the bytes, or refused by its test, or the place behind it.
pub fn text_at(lim: Limits, s: &[u8], before: Before, t: usize, n: usize) -> Next
    requires { (0 < n) × (behind (name_end s.now) before.from before.count ≤ t) }
    ensures { result ≡ verdict (text n (text_test lim.made (texts_from s.now before.from before.count)) s.now t) }
{
    if read_fields::left(s, t) < n {
        return Err(fault(Refusal::Length, t));
    }
    text_test(lim, s, before, &s[t..t + n]).map_err(|k| fault(k, t))?;
    Ok(t + n)
}

// ---- marks, by which a text is known to be new without a search. A set of texts would need a heap, and the project has none
// How many marks there are.
pub const MARKS: usize = 2048;

// The mark of a text. By a loop, whose invariant says that the mark is small: the closure of a fold would have to say it in a contract.
pub fn mark_of(text: &[u8]) -> usize
    ensures { (result ≡ mark 0 text.now) × (result < MARKS) }
{
    let mut h = 0;
    for b in text {
        h = (h * 37 + usize::from(*b)) % MARKS;
    }
    h
}

// The mark of the text of the name at p; any mark where the bytes end before the text does, since that name is refused with whatever mark: 0 and
// no None, which would only be opened for it.
pub fn mark_at(s: &[u8], p: usize) -> usize
    ensures { (result < MARKS) × (name_end s.now p ≤ length s.now → result ≡ mark 0 (name_from s.now p).text) }
{
    if read_fields::left(s, p) < 2 {
        return 0;
    }
    let n = usize::from(read_fields::u8_at(s, p + 1));
    if read_fields::left(s, p + 2) < n {
        return 0;
    }
    mark_of(read_layout::text_of(s, p))
}

// ---- names
// The name at p, with these names before it.
pub fn name_at(lim: Limits, s: &[u8], before: Before, p: usize) -> Next
    requires { behind (name_end s.now) before.from before.count ≤ p }
    ensures { result ≡ verdict (name lim (texts_from s.now before.from before.count) s.now p) }
{
    let (_, q) = type_field(s, p)?;
    let (n, t) = text_length_at(s, q, lim.text)?;
    // as: the number fits, or u64 and usize have no From; try_from would give an error that cannot happen.
    text_at(lim, s, before, t, n as usize)
}

// `count` names from a place on, one behind the other. seen: which marks the texts before have.
pub fn names_at(lim: Limits, s: &[u8], at: usize, count: u64) -> Next
    ensures { result ≡ verdict (names lim [] count s.now at) }
{
    let mut seen = [false; MARKS];
    let mut p = at;
    for i in 0..count {
        let h = mark_at(s, p);
        // If the mark is not set, no earlier name has this text, so none is searched.
        let before = Before {
            from: at,
            count: if seen[h] { i } else { 0 },
        };
        seen[h] = true;
        p = name_at(lim, s, before, p)?;
    }
    Ok(p)
}
