// Name text: the part of the input or of its rewriting that is the text of a name. Functions take input, rewriting and index as the definition
// does, and as C lends them.
#![tactic(auto)]

ghost use Rattle.std.specs.Prelude.{◌≡◌, Bool, true, false, ℕ, ◌+◌, ◌<◌, ◌≤◌};
ghost use Rattle.record.specs.Answer.{verdict};
ghost use Rattle.numbering.specs.NameText.{name_part, parts_of, headed, from_parts, name_text, bytes_of};
ghost use Rattle.name_text.specs.Found.{found, IsWithin, part_from, starts_at};

use numbering::NameError;
use read_fields::Next;
use record::Refusal;

// A part of the input or of the rewriting, told by a bool as in the definition's part.
#[derive(Clone, Copy, PartialEq, Eq, Debug)]
pub struct Place {
    pub rewriting: bool,
    pub from: usize,
    pub count: usize,
}

// ---- the names of a record
// Where the name at p ends, or its field that runs past the end.
pub fn name_within(s: &[u8], p: usize) -> Next
    ensures { (b : Bool) → result ≡ verdict (name_part b s.now p) }
{
    let (_, q) = read_fields::field_at::<1>(s, p)?;
    let (n, t) = read_fields::field_at::<1>(s, q)?;
    // as: the number fits, or u64 and usize have no From; try_from would give an error that cannot happen.
    read_fields::skip_at(s, t, n as usize)
}

// Where the names end, or the first field of them that runs past the end.
pub fn names_within(s: &[u8]) -> Next
    ensures { (b : Bool) → result ≡ verdict (parts_of b s.now) }
{
    let mut p = 8;
    for _ in 0..read_layout::names_count(s) {
        p = name_within(s, p)?;
    }
    Ok(p)
}

// ---- what is found
// The text of a name of the input or of the rewriting s.
pub fn text_in(s: &[u8], rewriting: bool, index: usize) -> Place
    requires { index < 65536 }
    ensures { found (Ok result) ≡ part_from rewriting s.now index }
{
    let p = read_layout::names_end(s, index, 8);
    Place {
        rewriting,
        from: p + 1 + 1,
        count: usize::from(read_fields::u8_at(s, p + 1)),
    }
}

// Whether the rewriting's head is that of a rewriting: 8 bytes, the length of the rest, the version.
pub fn headed(version: u64, s: &[u8]) -> bool
    ensures { result ≡ headed version s.now }
{
    read_fields::opens(s, 8, version)
}

// The name's text, where the names of both records lie within them.
pub fn chosen(input: &[u8], rewriting: &[u8], index: usize) -> Result<Place, NameError>
    ensures { (p q : ℕ) → verdict (parts_of false input.now) ≡ Ok p →
        verdict (parts_of true rewriting.now) ≡ Ok q →
        (found result ≡ from_parts index (parts_of false input.now) (parts_of true rewriting.now))
        × IsWithin result input.now rewriting.now }
{
    let n = usize::from(read_layout::names_count(input));
    let m = usize::from(read_layout::names_count(rewriting));
    if m < n {
        return Err(NameError::Mismatch);
    }
    if m <= index {
        return Err(NameError::Refused(read_fields::fault(Refusal::Name, 0)));
    }
    if index < n {
        return Ok(text_in(input, false, index));
    }
    Ok(text_in(rewriting, true, index))
}

// The name's text, where the names of both records lie within them; otherwise the rewriting does not belong to the input.
pub fn both(input: &[u8], rewriting: &[u8], index: usize) -> Result<Place, NameError>
    ensures { (found result ≡ from_parts index (parts_of false input.now) (parts_of true rewriting.now))
        × IsWithin result input.now rewriting.now }
{
    names_within(input)
        .and(names_within(rewriting))
        .map_err(|_| NameError::Mismatch)?;
    chosen(input, rewriting, index)
}

// The part, or why there is none.
pub fn part_of(input: &[u8], rewriting: &[u8], index: usize) -> Result<Place, NameError>
    ensures { (found result ≡ name_text input.now rewriting.now index)
        × IsWithin result input.now rewriting.now }
{
    checker::check(input)?;
    if headed(read_fields::byte_or(input, 4), rewriting) {
        both(input, rewriting, index)
    } else {
        Err(NameError::Mismatch)
    }
}

// ---- the entries
// The answer: the text is handed back, or why not.
pub fn name_answer(input: &[u8], rewriting: &[u8], index: usize) -> Result<(), NameError>
    ensures { result ≡ (name_text input.now rewriting.now index).answer }
{
    part_of(input, rewriting, index)?;
    Ok(())
}

// The text of a name, by its bytes and by where they stand; a refusal hands back the empty part at the input's start.
pub fn name_text<'a>(input: &'a [u8], rewriting: &'a [u8], index: usize) -> &'a [u8]
    ensures { (result.now ≡ bytes_of input.now rewriting.now (name_text input.now rewriting.now index).part)
        × (result.ref_ptr ≡ starts_at input.entry.ref_ptr rewriting.entry.ref_ptr (name_text input.now rewriting.now index).part) }
{
    match part_of(input, rewriting, index) {
        Ok(p) if p.rewriting => &rewriting[p.from..p.from + p.count],
        Ok(p) => &input[p.from..p.from + p.count],
        Err(_) => &input[..0],
    }
}
