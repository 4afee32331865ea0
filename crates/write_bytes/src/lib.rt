// Writing to a lent slice. `put_bytes` and `put_as_room` leave out what would stand past the end, and the writers over them with them, so they ask
// for no room, and over an empty slice they learn the size. Of the public ones only `move_up` asks that what it writes lies inside.
// Each takes out and a place, and those of texts, digits and made names hand back the place behind: a struct of both would be a `&mut` slice lent
// on and taken back at each part, and say no more. That `at + n < places` is asked by each, since n is another for each; a type of
// places would have to know the n of what is yet to come.
#![tactic(auto)]

ghost use Rattle.std.specs.Prelude.{◌≡◌, ◌+◌, ◌-◌, ◌*◌, ◌^◌, ◌<◌, ◌≤◌, length, ltb, take, drop};
ghost use Rattle.record.specs.Write.{be, name_bytes};
ghost use Rattle.numbering.specs.Made.{digits, made_text};
ghost use Rattle.read_fields.specs.Places.{places};
ghost use Rattle.write_bytes.specs.Put.{put, Wrote, IdWidth, longest_text, most_made, most_digits};
ghost use Rattle.write_bytes.specs.Stand.{Stand};

// The bytes as far as they have room.
#[inline(always)]
fn put_bytes(out: &mut [u8], at: usize, bytes: &[u8])
    ensures { out.new ≡ put out.old at bytes.now }
{
    if at >= out.len() {
        return;
    }
    let room = out.len() - at;
    if bytes.len() <= room {
        out[at..at + bytes.len()].copy_from_slice(bytes);
    } else {
        out[at..].copy_from_slice(&bytes[..room]);
    }
}

// A number of N bytes, the first the greatest.
#[inline(always)]
pub fn put_be<const N: usize>(out: &mut [u8], at: usize, x: u64)
    requires { (N ≤ 8) × (x < 256 ^ N) }
    ensures { out.new ≡ put out.old at (be N x) }
{
    put_bytes(out, at, &u64::to_be_bytes(x)[8 - N..]);
}

// Of one byte, of two, of four and of eight, whose types say that the number fits.
pub fn put_u8(out: &mut [u8], at: usize, x: u8)
    ensures { out.new ≡ put out.old at (be 1 x) }
{
    put_be::<1>(out, at, u64::from(x));
}

pub fn put_u16(out: &mut [u8], at: usize, x: u16)
    ensures { out.new ≡ put out.old at (be 2 x) }
{
    put_be::<2>(out, at, u64::from(x));
}

pub fn put_u32(out: &mut [u8], at: usize, x: u32)
    ensures { out.new ≡ put out.old at (be 4 x) }
{
    put_be::<4>(out, at, u64::from(x));
}

pub fn put_u64(out: &mut [u8], at: usize, x: u64)
    ensures { out.new ≡ put out.old at (be 8 x) }
{
    put_be::<8>(out, at, x);
}

// x in w bytes: an id. w says how many bytes an id has, with which places are counted, as `at + w + 1` behind id and code: a number, and no kind.
pub fn put_word(out: &mut [u8], at: usize, w: usize, x: u64)
    requires { IdWidth w × (x < 256 ^ w) }
    ensures { out.new ≡ put out.old at (be w x) }
{
    if w == 8 {
        put_u64(out, at, x);
    } else {
        // as: the number fits, or u64 and usize have no From; try_from would give an error that cannot happen.
        put_u32(out, at, x as u32);
    }
}

// Whether x has room in w bytes.
pub fn word_fits(w: usize, x: u64) -> bool
    requires { IdWidth w }
    ensures { result ≡ ltb x (256 ^ w) }
{
    w == 8 || x < 1 << 32
}

// The next N bytes of a text that has room, if so many are left, of which n are written; how many are then. By an array, so that they are a load and
// a store: a copy of some length from one slice to another is a call of memmove, which the library for C would need from outside.
#[inline(always)]
fn put_next<const N: usize>(out: &mut [u8], at: usize, text: &[u8], n: usize) -> usize
    requires { (n ≤ length text.now) × (at + length text.now ≤ length out.old) }
    ensures { (out.new ≡ put out.old (at + n) (take (result - n) (drop n text.now))) × ((n ≤ result) × ((result ≤ length text.now) ×
        ((N ≤ length text.now - n → result ≡ n + N) × (length text.now - n < 2 * N → length text.now - result < N)))) }
{
    if text.len() - n < N {
        return n;
    }
    let mut part = [0u8; N];
    part.copy_from_slice(&text[n..n + N]);
    out[at + n..at + n + N].copy_from_slice(&part);
    n + N
}

// A text that has room.
#[inline(always)]
fn put_whole(out: &mut [u8], at: usize, text: &[u8])
    requires { at + length text.now ≤ length out.old }
    ensures { out.new ≡ put out.old at text.now }
{
    let mut n = 0;
    while text.len() - n >= 8 {
        n = put_next::<8>(out, at, text, n);
    }
    let four = put_next::<4>(out, at, text, n);
    let two = put_next::<2>(out, at, text, four);
    put_next::<1>(out, at, text, two);
}

// A text as far as it has room.
fn put_as_room(out: &mut [u8], at: usize, text: &[u8])
    ensures { out.new ≡ put out.old at text.now }
{
    if at >= out.len() {
        return;
    }
    let room = out.len() - at;
    if text.len() <= room {
        put_whole(out, at, text);
    } else {
        put_whole(out, at, &text[..room]);
    }
}

// A text; the place behind it.
pub fn put_text(out: &mut [u8], at: usize, text: &[u8]) -> usize
    requires { at + length text.now < places }
    ensures { Wrote out.old out.new at result text.now × (result ≡ at + length text.now) }
{
    put_as_room(out, at, text);
    at + text.len()
}

// n bytes of s from a place on, or as many as there are.
pub fn part(s: &[u8], from: usize, n: usize) -> &[u8]
    ensures { result.now ≡ take n (drop from s.now) }
{
    let rest = &s[from.min(s.len())..];
    &rest[..n.min(rest.len())]
}

// n bytes of src, or as many as there are; the place behind them.
pub fn copy_bytes(src: &[u8], from: usize, n: usize, out: &mut [u8], at: usize) -> usize
    requires { at + n < places }
    ensures { Wrote out.old out.new at result (take n (drop from src.now)) × (result ≤ at + n) }
{
    put_text(out, at, part(src, from, n))
}

// How many decimal digits k has.
pub fn count_digits(k: u64) -> usize
    ensures { (result ≡ length (digits k)) × (result ≤ most_digits) }
{
    if k == 0 { 1 } else { k.ilog10() as usize + 1 }
}

// The decimal digits of k, the last first, each straight to its place; the place behind them. Document 02, Point 3: the one promise on digits.
pub fn put_digits(out: &mut [u8], at: usize, k: u64) -> usize
    requires { at + most_digits < places }
    ensures { Stand out.old out.new at result (digits k) × (result ≤ at + most_digits) }
{
    let n = count_digits(k);
    let end = at + n;
    let mut left = k;
    for i in (0..n).rev() {
        put_u8(out, at + i, b'0' + (left % 10) as u8);
        left /= 10;
    }
    end
}

// The text of the name made with K = k of one with this text: `_`, the text, `_lvn` and the digits of k.
fn put_made_text(out: &mut [u8], at: usize, text: &[u8], k: u64) -> usize
    requires { (at + 255 < places) × ((length text.now ≤ longest_text) × (k < most_made)) }
    ensures { Wrote out.old out.new at result (made_text text.now k) × (result ≤ at + 215) }
{
    put_u8(out, at, b'_');
    let p = put_text(out, at + 1, text);
    let q = put_text(out, p, b"_lvn");
    put_digits(out, q, k)
}

// That name: its type, the length of its text, its text. The length is written behind the text.
pub fn put_made(out: &mut [u8], at: usize, ty: u8, text: &[u8], k: u64) -> usize
    requires { (at + 257 < places) × ((length text.now ≤ longest_text) × (k < most_made)) }
    ensures { Wrote out.old out.new at result (name_bytes (record { type = ty; text = made_text text.now k })) × (result ≤ at + 217) }
{
    put_u8(out, at, ty);
    let end = put_made_text(out, at + 2, text, k);
    put_u8(out, at + 1, (end - at - 2) as u8);
    end
}

// Moves n bytes from a place to a later one.
pub fn move_up(out: &mut [u8], from: usize, to: usize, n: usize)
    requires { (from ≤ to) × (to + n ≤ length out.old) }
    ensures { out.new ≡ put out.old to (take n (drop from out.old)) }
{
    for left in (0..n).rev() {
        out[to + left] = out[from + left];
    }
}
