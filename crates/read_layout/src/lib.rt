// Where the parts of a record that was checked stand: its names, its instructions, its blocks. All reads are total, 0 past the end, so
// nothing is asked of the bytes.
#![tactic(auto)]

ghost use Rattle.std.specs.Prelude.{◌≡◌, ◌+◌, ◌*◌, ◌<◌, ◌≤◌, length, set};
ghost use Rattle.std.proofs.lemmas.List.Edits.{sets};
ghost use Rattle.record.specs.Record.{id_bytes};
ghost use Rattle.record.specs.Shape.{shape_of};
ghost use Rattle.record.specs.Reader.{num_at};
ghost use Rattle.record.specs.Decode.{behind, name_from, operands_end, instr_end, block_end, name_end, names_count, names_end, id_width};
ghost use Rattle.record.specs.Sizes.{places_end};
ghost use Rattle.read_fields.specs.Places.{places};
ghost use Rattle.read_layout.specs.Bounds.{widest_id, operands_reach, instr_reach, block_reach, name_reach};
ghost use Rattle.read_layout.specs.Layout.{types_from, places_from, blocks_from, layout_of, Bounded};

// What the head of a record says: the bytes of an id, how many arguments, names and blocks there are, and where the names end.
#[derive(Clone, Copy, PartialEq, Eq, Debug)]
pub struct Layout {
    pub width: usize,
    pub args: u16,
    pub names: u16,
    pub end: usize,
    pub blocks: usize,
}

// A place in the input, and the place in the output.
#[derive(Clone, Copy, PartialEq, Eq, Debug)]
pub struct Spot {
    pub p: usize,
    pub q: usize,
}

// ---- ids
// The bytes of an id in a record of this version.
#[tactic(auto, unfolding(record::specs::Record::id_bytes))]
pub fn id_bytes(version: u64) -> usize
    ensures { (result ≡ id_bytes version) × (result ≤ widest_id) }
{
    if version == 2 { 8 } else { 4 }
}

// The bytes of an id in this record.
pub fn id_width(s: &[u8]) -> usize
    ensures { (result ≡ id_width s.now) × (result ≤ widest_id) }
{
    id_bytes(read_fields::byte_or(s, 4))
}

// ---- the end of an instruction
// By three numbers for each code up to 71; each code past it is unknown, and is followed as 71 is. From a code's shape they would come by jumps, of
// which a processor foresees few where codes are mixed, and each walk over instructions has to wait for them.

// How far behind a code the count of its arguments stands.
const COUNT_AT: [u8; 72] = [
    // const; add to ptradd
    2, 2, 2, 2, 2, 2, 2, 2, 2, 2, 2, 2, 2, 2, 2,
    // none
    0, 0, 0, 0, 0,
    // call; fadd to load; phi
    2, 2, 2, 2, 2, 2, 2, 2, 2, 2, 2, 2, 2, 2, 2, 2, 2, 2, 2, 2,
    // none
    0, 0, 0, 0, 0, 0, 0, 0, 0, 0, 0, 0, 0, 0, 0, 0, 0, 0, 0, 0, 0, 0, 0, 0,
    // jmp, br, ret, call, print, nop, store, free
    0, 0, 0, 0, 0, 0, 0, 0,
];

// The bytes behind a code that are not for an argument.
const FIXED: [u8; 72] = [
    // const; add to ptradd
    11, 3, 3, 3, 3, 3, 3, 3, 3, 3, 3, 3, 3, 3, 3,
    // none
    1, 1, 1, 1, 1,
    // call; fadd to load; phi
    5, 3, 3, 3, 3, 3, 3, 3, 3, 3, 3, 3, 3, 3, 3, 3, 3, 3, 3, 3,
    // none
    1, 1, 1, 1, 1, 1, 1, 1, 1, 1, 1, 1, 1, 1, 1, 1, 1, 1, 1, 1, 1, 1, 1, 1,
    // jmp, br, ret, call, print, nop, store, free
    3, 5, 1, 3, 1, 1, 1, 1,
];

// The bytes for each argument: its own, and those of its block number in a phi. A const has no count, and what is read for one counts for nothing.
const PER_ARG: [u8; 72] = [
    // const; add to ptradd
    0, 2, 2, 2, 2, 2, 2, 2, 2, 2, 2, 2, 2, 2, 2,
    // none
    2, 2, 2, 2, 2,
    // call; fadd to load; phi
    2, 2, 2, 2, 2, 2, 2, 2, 2, 2, 2, 2, 2, 2, 2, 2, 2, 2, 2, 4,
    // none
    2, 2, 2, 2, 2, 2, 2, 2, 2, 2, 2, 2, 2, 2, 2, 2, 2, 2, 2, 2, 2, 2, 2, 2,
    // jmp, br, ret, call, print, nop, store, free
    2, 2, 2, 2, 2, 2, 2, 2,
];

// s, w and at stand by themselves here, and w ≤ widest_id with them: who calls has them in a struct of its own (check_types' Typed, engine_quiet's
// Ground), and would build another for each call.

// The place behind the operands of this code.
fn operands_end(code: u64, s: &[u8], at: usize) -> usize
    requires { at + operands_reach < places }
    ensures { (result ≡ operands_end (shape_of code) s.now at) × (result ≤ at + operands_reach) }
{
    let i = code.min(71) as usize;
    let n = read_fields::byte_or(s, at + usize::from(COUNT_AT[i])) as usize;
    at + usize::from(FIXED[i]) + usize::from(PER_ARG[i]) * n
}

// The place behind the instruction at a place; w: the bytes of an id.
pub fn instr_end(s: &[u8], w: usize, at: usize) -> usize
    requires { (w ≤ widest_id) × (at + instr_reach < places) }
    ensures { (result ≡ instr_end w s.now at) × (result ≤ at + instr_reach) }
{
    operands_end(read_fields::byte_or(s, at + w), s, at + w + 1)
}

// ---- blocks
// How many instructions the block at a place has, and where the first of them stands, behind the block's saves.
pub fn block_head(s: &[u8], at: usize) -> (usize, usize)
    requires { at + 4 < places }
    ensures { (result.0 ≡ num_at s.now at 2) × ((result.0 < 65536) × (result.1 ≡ at + 2 + 2)) }
{
    (usize::from(read_fields::u16_at(s, at)), at + 2 + 2)
}

// The place behind n instructions.
fn body_end(s: &[u8], w: usize, n: usize, at: usize) -> usize
    requires { (w ≤ widest_id) × (at + instr_reach * n < places) }
    ensures { (result ≡ behind (instr_end w s.now) at n) × (result ≤ at + instr_reach * n) }
{
    let mut p = at;
    for _ in 0..n {
        p = instr_end(s, w, p);
    }
    p
}

// The place behind the block at a place.
pub fn block_end(s: &[u8], w: usize, at: usize) -> usize
    requires { (w ≤ widest_id) × (at + block_reach < places) }
    ensures { (result ≡ block_end w s.now at) × (result ≤ at + block_reach) }
{
    let (n, first) = block_head(s, at);
    body_end(s, w, n, first)
}

// ---- tables
// Entry i of a table, which stays as it is where it has no such entry. get_mut was tried: its promise says nothing of what the slice ends as.
pub fn store<T: Copy>(table: &mut [T], i: usize, v: T)
    ensures { table.new ≡ set table.old i v }
{
    if i < table.len() {
        table[i] = v;
    }
}

// The places of the n blocks from a place on, put into a table from its start; the place behind the blocks.
pub fn fill_blocks(s: &[u8], w: usize, places: &mut [u32], n: usize, at: usize) -> usize
    requires { (w ≤ widest_id) × (behind (block_end w s.now) at n < places_end) }
    ensures { (result ≡ behind (block_end w s.now) at n)
        × (places.new ≡ sets places.old 0 (blocks_from w s.now at n)) }
{
    let mut p = at;
    for i in 0..n {
        store(places, i, p as u32);
        p = block_end(s, w, p);
    }
    p
}

// ---- names
// The text of the name at a place, which lies in the record.
#[tactic(auto, unfolding(record::specs::Decode::name_end, record::specs::Decode::name_from))]
pub fn text_of(s: &[u8], at: usize) -> &[u8]
    requires { name_end s.now at ≤ length s.now }
    ensures { result.now ≡ (name_from s.now at).text }
{
    let n = usize::from(read_fields::u8_at(s, at + 1));
    &s[at + 2..at + 2 + n]
}

// The place behind the name at a place.
pub fn name_end(s: &[u8], at: usize) -> usize
    requires { name_end s.now at < places }
    ensures { (result ≡ name_end s.now at) × (result ≤ at + name_reach) }
{
    at + 1 + 1 + usize::from(read_fields::u8_at(s, at + 1))
}

// The place behind the n names from a place on.
pub fn names_end(s: &[u8], n: usize, at: usize) -> usize
    requires { at + name_reach * n < places }
    ensures { (result ≡ behind (name_end s.now) at n) × (result ≤ at + name_reach * n) }
{
    let mut p = at;
    for _ in 0..n {
        p = name_end(s, p);
    }
    p
}

// The types and the places of the n names from a place on, put into two tables from their start; the place behind the names. A table
// that is too short keeps what it has. Two tables, since who numbers reads the types alone and who copies names the places alone, each as the
// list that the definitions speak of; and who wants one of them lends an empty table for the other, where who wants neither asks names_end.
pub fn fill_names(s: &[u8], types: &mut [u8], places: &mut [u32], n: usize, at: usize) -> usize
    requires { at + name_reach * n < places_end }
    ensures { (result ≡ behind (name_end s.now) at n) × (result ≤ at + name_reach * n)
        × (types.new ≡ sets types.old 0 (types_from s.now at n))
        × (places.new ≡ sets places.old 0 (places_from s.now at n)) }
{
    let mut p = at;
    for i in 0..n {
        store(types, i, read_fields::u8_at(s, p));
        store(places, i, p as u32);
        p = name_end(s, p);
    }
    p
}

// ---- the head
// How many names there are.
pub fn names_count(s: &[u8]) -> u16
    ensures { result ≡ names_count s.now }
{
    read_fields::u16_at(s, 6)
}

// What the head says, where the names end at this place.
pub fn layout_at(s: &[u8], end: usize) -> Layout
    requires { end + 2 ≤ places }
    ensures says { end ≡ names_end s.now → result ≡ layout_of s.now }
    ensures names { (result.names ≡ names_count s.now) × (result.end ≡ end) }
    ensures few { (result.width ≤ widest_id) × ((result.args < 256) × ((result.names < 65536) × (result.blocks < 65536))) }
{
    Layout {
        width: id_width(s),
        args: u16::from(read_fields::u8_at(s, 5)),
        names: names_count(s),
        end,
        blocks: usize::from(read_fields::u16_at(s, end)),
    }
}

// What the head says, and the types and places of the names.
pub fn layout_of(s: &[u8], types: &mut [u8], places: &mut [u32]) -> Layout
    ensures { (result ≡ layout_of s.now) × Bounded result
        × (types.new ≡ sets types.old 0 (types_from s.now 8 (names_count s.now)))
        × (places.new ≡ sets places.old 0 (places_from s.now 8 (names_count s.now))) }
{
    let end = fill_names(s, types, places, usize::from(names_count(s)), 8);
    layout_at(s, end)
}

// What the head says, where no table of the names is asked.
pub fn head_of(s: &[u8]) -> Layout
    ensures { result ≡ layout_of s.now }
{
    layout_at(s, names_end(s, usize::from(names_count(s)), 8))
}
