// What the programs that replay a stored list share: records in hexadecimal and decimal numbers, read from lines of text, and the count of
// the lines that agree.
#![tactic(auto)]

ghost use Rattle.std.specs.Prelude.{ℕ, List, ◌+◌, ◌≡◌, ◌==◌, ◌&&◌, ◌≢◌, ◌∷◌, ◌<◌, ◌≤◌, true, length, get_or, IfSome, MatchBool, OnOk};
ghost use Rattle.std.specs.Io.KnownBytes.{Appends};
ghost use Rattle.std.specs.List.{list_all};
ghost use Rattle.replay_lines.specs.Counts.{counts_line};
ghost use Rattle.replay_lines.specs.Decimal.{decimal, behind_digits};
ghost use Rattle.replay_lines.specs.Filled.{holds_before_fill};

use record::Refuses;
use std::io::{Read, Write};
use std::{fmt, io};

// The length of the longest list, in bytes.
pub const LONGEST: usize = 524288;

// The bytes of the longest record whose rewriting, names or figures a list has, and of the longest rewriting.
pub const RECORD: usize = 4096;

pub const REWRITING: usize = 8192;

// What is left to read of a list.
#[derive(Clone, Copy, PartialEq, Eq, Debug)]
pub struct Cursor<'a> {
    rest: &'a [u8],
}

impl<'a> Cursor<'a> {
    // Reads this byte, if it comes next, and returns whether it does; nothing is read where it does not.
    pub fn skip(&mut self, c: u8) -> bool
        ensures { MatchBool result (self.old.rest.now ≡ c ∷ self.new.rest.now)
            ((self.new ≡ self.old) × ((rest : List ℕ) → self.old.rest.now ≢ c ∷ rest)) }
    {
        match self.rest.split_first() {
            Some((first, rest)) if *first == c => {
                self.rest = rest;
                true
            }
            _ => false,
        }
    }

    // Reads the decimal number that comes next, or behind a space; its last 64 bits where it has more.
    pub fn number(&mut self) -> u64
        ensures value { result ≡ decimal self.old.rest.now }
        ensures rest { self.new.rest.now ≡ behind_digits self.old.rest.now }
    {
        self.skip(b' ');
        let mut value = 0u64;
        // Where the digits end is seen as they are read: a `for` would need another cursor.
        while let Some((c, rest)) = self.rest.split_first() {
            if !c.is_ascii_digit() {
                break;
            }
            value = value.wrapping_mul(10).wrapping_add(u64::from(*c - b'0'));
            self.rest = rest;
        }
        value
    }

    // Reads two hexadecimal digits, and returns the byte that they stand for; none where they do not come next.
    fn byte(&mut self) -> Option<u8> {
        let [high, low, rest @ ..] = self.rest else {
            return None;
        };
        let value = hex_digit(*high)? * 16 + hex_digit(*low)?;
        self.rest = rest;
        Some(value)
    }

    // Puts what `next` reads into the places, as far as it reads and they go, and returns what it put there.
    pub fn each<'b, T: Copy, F: Fn(&mut Cursor<'a>) -> Option<T>>(
        &mut self,
        places: &'b mut [T],
        next: F,
    ) -> &'b [T]
        requires { F.IsAlwaysCallable next }
        ensures { length result.now ≤ length places.old }
    {
        for (n, x) in places.iter_mut().enumerate() {
            let Some(value) = next(self) else {
                return &places[..n];
            };
            *x = value;
        }
        places
    }

    // Reads hexadecimal digits, two to a byte, as far as they and the room go, and returns the bytes that they stand for.
    pub fn bytes<'b>(&mut self, room: &'b mut [u8]) -> &'b [u8]
        ensures { length result.now ≤ length room.old }
    {
        self.each(room, |line| line.byte())
    }
}

// The value of a hexadecimal digit in small letters; char::to_digit would take capitals too.
pub fn hex_digit(c: u8) -> Option<u8>
    ensures { IfSome result (λ d. d < 16) }
{
    match c {
        b'0'..=b'9' => Some(c - b'0'),
        b'a'..=b'f' => Some(c - b'a' + 10),
        _ => None,
    }
}

// Whether all of these are `fill`. None ends the loop, so that many are looked at at once, which a search for one that is another does not do.
fn are_filled<T: Copy + PartialEq>(all: &[T], fill: T) -> bool
    ensures { result ≡ list_all (λ x. T.eq x fill) all.now }
{
    let mut filled = true;
    for x in all {
        filled = (*x == fill) && filled;
    }
    filled
}

// Whether these stand first, and beyond them nothing but `fill`.
pub fn holds_before_fill<T: Copy + PartialEq>(all: &[T], first: &[T], fill: T) -> bool
    ensures { result ≡ holds_before_fill T.eq all.now first.now fill }
{
    all.starts_with(first) && are_filled(&all[first.len()..], fill)
}

// Lends the first `count` of `all`, which holds only `fill`, to `answers`; true if that is true and then `all` is `first` followed by `fill`.
pub fn leaves<T: Copy + PartialEq, F: FnOnce(&mut [T]) -> bool>(
    all: &mut [T],
    count: usize,
    first: &[T],
    fill: T,
    answers: F,
) -> bool
    requires { F.IsAlwaysCallable answers }
    ensures lent { result ≡ true → count ≤ length all.old }
    ensures left { result ≡ true → holds_before_fill T.eq all.new first.now fill ≡ true }
{
    if count > all.len() {
        return false;
    }
    answers(&mut all[..count]) && holds_before_fill(all, first, fill)
}

// Whether a refusal has this number and this value.
pub fn is_refusal<E: Refuses>(e: E, number: u64, value: u64) -> bool
    ensures { result ≡ (((E.answer e).number == number) && (get_or (E.answer e).values 0 0 == value)) }
{
    // as: u64 and usize have no From; try_from would give an error that cannot happen.
    u64::from(e.number()) == number && e.value() as u64 == value
}

// What a line says of the answer for a record, and of the places lent for it. No contracts: a line may say anything, and a replay finds out
// whether it is true.
pub trait Expected: Copy {
    // The most places that are lent: more than an answer needs.
    const MOST: usize;

    // The number of the answer: 0, or that of a refusal.
    fn number(self) -> u64;

    // Whether the record is answered so with `count` places lent, and these then hold what the line says.
    fn comes(self, record: &[u8], count: usize) -> bool;

    // Whether the record is accepted and answered so, with each count of places that makes a difference.
    fn comes_accepted(self, record: &[u8]) -> bool;

    // Whether the record is refused so, with many places and with none.
    fn comes_refused(self, record: &[u8]) -> bool {
        self.comes(record, Self::MOST) && self.comes(record, 0)
    }

    // Whether the line is true of the record.
    fn agrees(self, record: &[u8]) -> bool {
        if self.number() == 0 {
            self.comes_accepted(record)
        } else {
            self.comes_refused(record)
        }
    }
}

// How many lines agreed and how many did not.
#[derive(Clone, Copy, PartialEq, Eq, Debug)]
pub struct Counts {
    pub same: usize,
    pub other: usize,
}

impl fmt::Display for Counts {
    ghost use Rattle.std.specs.Prelude.{Some};
    ghost use Rattle.replay_lines.specs.Counts.{counts_text};

    ghost output = { λ counts. Some (counts_text counts.same counts.other) };

    fn fmt<W: fmt::Write>(&self, f: &mut fmt::Formatter<W>) -> fmt::Result {
        let same = self.same;
        let other = self.other;
        write!(f, "{same} agree, {other} differ")
    }
}

// All lines: one agrees where `agrees` returns true. It ends where `agrees` has stopped reading, behind the byte that ends a line if that comes
// next, and there the next one begins; one of which nothing is read differs, and ends the list.
pub fn replay<F: Fn(&mut Cursor<'_>) -> bool>(text: &[u8], agrees: F) -> Counts
    requires { F.IsAlwaysCallable agrees }
    ensures { result.same + result.other ≤ length text.now }
{
    let mut list = Cursor { rest: text };
    let mut same = 0;
    let mut other = 0;
    // Where a line ends is seen as it is read: a `for` over the text's lines would end one elsewhere.
    while !list.rest.is_empty() {
        let left = list.rest.len();
        let agreed = agrees(&mut list);
        list.skip(b'\n');
        if list.rest.len() >= left {
            other += 1;
            break;
        }
        if agreed {
            same += 1;
        } else {
            other += 1;
        }
    }
    Counts { same, other }
}

// The list that is read, told in what is written: how many lines agree, and how many do not. Which these are no clause says, since `agrees` may
// be any function. It is read into an array that is lent, since the check cannot go through the making of one so long in a function with bounds.
pub fn tell<R: Read, W: Write, F: Fn(&mut Cursor<'_>) -> bool>(
    reader: &mut R,
    writer: &mut W,
    text: &mut [u8; LONGEST],
    agrees: F,
) -> io::Result<()>
    requires { F.IsAlwaysCallable agrees }
    ensures { OnOk result ((same : ℕ) × (other : ℕ) × (same + other ≤ length text.old) ×
        Appends (W.contents writer.old) (W.contents writer.new) (counts_line same other)) }
{
    let list: &mut [u8] = text;
    let n = read_input::read_full(reader, list)?;
    let counts = replay(&list[..n], agrees);
    writeln!(writer, "{counts}")
}
