// The bytes of a text: well formed, reserved, or the text of one of the names before it.
#![tactic(auto)]

ghost use Rattle.std.specs.Prelude.{◌≡◌, ◌||◌, ◌≤◌, length};
ghost use Rattle.record.specs.Text.{digit, letter, all_text, well_formed, undigited, ends_lvn, reserved, same_bytes, among};
ghost use Rattle.record.specs.Decode.{behind, name_from, name_end};
ghost use Rattle.read_layout.specs.Layout.{texts_from};

// ---- one byte, by the numbers of its letters and digits: is_ascii_digit and the like are of bytes, and any number may be asked here
// 0 to 9.
pub fn digit(b: u64) -> bool
    ensures { result ≡ digit b }
{
    matches!(b, 0x30..=0x39)
}

// Letters, `_` and `.`.
pub fn letter(b: u64) -> bool
    ensures { result ≡ letter b }
{
    matches!(b, 0x41..=0x5A | 0x61..=0x7A | 0x5F | 0x2E)
}

// A byte that may stand in a text behind its first.
pub fn text_byte(b: u64) -> bool
    ensures { result ≡ (letter b || digit b) }
{
    letter(b) || digit(b)
}

// ---- a text
// Whether it has letters, digits, `_` and `.` alone.
pub fn all_text(text: &[u8]) -> bool
    ensures { result ≡ all_text text.now }
{
    text.iter().all(|b| text_byte(u64::from(*b)))
}

// Letters, digits, `_` and `.`, no digit first.
#[tactic(auto, unfolding(record::specs::Text::well_formed))]
pub fn well_formed(text: &[u8]) -> bool
    ensures { result ≡ well_formed text.now }
{
    match text {
        [first, rest @ ..] => letter(u64::from(*first)) && all_text(rest),
        [] => false,
    }
}

// How long the text is without its closing digits. A match, each of whose arms is a law: with map_or in its place the check's search for a proof
// ran out.
pub fn undigited(text: &[u8]) -> usize
    ensures { result ≡ undigited text.now (length text.now) }
{
    match text.iter().rposition(|b| !digit(u64::from(*b))) {
        Some(last) => last + 1,
        None => 0,
    }
}

// Whether the text ends with `_lvn`.
pub fn ends_lvn(text: &[u8]) -> bool
    ensures { result ≡ ends_lvn text.now (length text.now) }
{
    text.ends_with(b"_lvn")
}

// The fewest bytes before a reserved text's closing digits: an underscore, one byte and `_lvn`.
const SHORTEST: usize = 6;

// An underscore, one or more bytes, `_lvn` and one or more digits.
pub fn reserved(text: &[u8]) -> bool
    ensures { result ≡ reserved text.now }
{
    if !text.starts_with(b"_") {
        return false;
    }
    let e = undigited(text);
    if text.len() <= e {
        return false;
    }
    SHORTEST <= e && ends_lvn(&text[..e])
}

// Whether the bytes of the two texts are the same.
pub fn same_bytes(a: &[u8], b: &[u8]) -> bool
    ensures { result ≡ same_bytes a.now b.now }
{
    a == b
}

// ---- the names before a text
// Names that stand one behind the other: `count` of them, from a place on.
#[derive(Clone, Copy, PartialEq, Eq, Debug)]
pub struct Before {
    pub from: usize,
    pub count: u64,
}

// Whether the name at p has this text.
pub fn same_name(s: &[u8], p: usize, text: &[u8]) -> bool
    requires { name_end s.now p ≤ length s.now }
    ensures { result ≡ same_bytes text.now (name_from s.now p).text }
{
    same_bytes(text, read_layout::text_of(s, p))
}

// Whether one of the names before has this text.
pub fn used_in(s: &[u8], before: Before, text: &[u8]) -> bool
    requires { behind (name_end s.now) before.from before.count ≤ length s.now }
    ensures { result ≡ among text.now (texts_from s.now before.from before.count) }
{
    let mut p = before.from;
    for _ in 0..before.count {
        if same_name(s, p, text) {
            return true;
        }
        p = read_layout::name_end(s, p);
    }
    false
}
