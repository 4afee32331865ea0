// Rewrite: a record is checked and its rewriting written. Where the output surely has room, the blocks are written once and then moved
// behind the names that are made. Otherwise they are numbered twice: over an empty output, which gives the bytes needed and the made
// names, then over the output.
// as: the number fits, or u64 and usize have no From; try_from would give an error that cannot happen.
#![tactic(auto)]

ghost use Rattle.std.specs.Prelude.{Ok, ◌≡◌, ◌∷◌, ◌+◌, ◌*◌, ◌<◌, ◌≤◌, length};
ghost use Rattle.record.specs.Reader.{num_at};
ghost use Rattle.record.specs.Write.{be, join, bytes};
ghost use Rattle.record.specs.Answer.{checked};
ghost use Rattle.record.specs.Sizes.{most_body};
ghost use Rattle.record.specs.Again.{record_in};
ghost use Rattle.read_fields.specs.Places.{places};
ghost use Rattle.numbering.specs.Made.{made};
ghost use Rattle.numbering.specs.Rewrite.{rewrite, rewrite_leaves};
ghost use Rattle.write_bytes.specs.Put.{put, Wrote};
ghost use Rattle.lvn_blocks.specs.Block.{indexes};
ghost use Rattle.rewrite.specs.Parts.{rewriting_in, figures_in, front_parts, blocks_bytes, Lent, Ready, Front, Typed, Noted, Answered, longest_front, longest_blocks, longest_rewriting, most_saves};

use lvn_blocks::{Behind, BlockState, Source};
use numbering::{RewriteError, Totals};
use read_layout::Spot;
use record::{BLOCKS, NAMES};
use write_names::Names;

// As many saves as a block can have, one for each instruction.
const SAVES: usize = 256;

// A record that is laid open: its bytes, the types and places of its names, and where these end. Source and Names are made of it where they are
// asked for: each of the crates below has a part of it. The two tables are arrays of with_opened, which lends them: a struct that owned them would
// be copied out of what makes it. What is known of it, that the record reads, its types and its places, is asked by each function as far as it
// needs it: Lent, to write the blocks, says nothing of the places, and Front, to write what stands before them, nothing of the types; Ready, to
// write both, says all.
#[derive(Clone, Copy, PartialEq, Eq, Debug)]
pub struct Opened<'a> {
    pub reads: &'a [u8],
    pub types: &'a [u8],
    pub places: &'a [u32],
    pub end: usize,
}

impl<'a> Opened<'a> {
    // How many blocks it has.
    pub fn blocks(&self) -> u16
        requires { self.now.end + 2 ≤ places }
        ensures { result ≡ num_at self.now.reads.now self.now.end 2 }
    {
        read_fields::u16_at(self.reads, self.end)
    }
}

// The blocks of the rewriting, from a place on; the place behind them, and the count of saves. names: what each K saved; each: how many
// instructions each block has. They and out are a parameter each: a struct of lent slices was tried, and of one that measure makes no proof
// finds what then stands in names.
pub fn put_blocks(
    st: &mut BlockState,
    src: &Opened,
    names: &mut [u16],
    each: &mut [u16],
    out: &mut [u8],
    at: usize,
) -> Behind
    requires { Lent src.now names.old × (at ≤ longest_front) }
    ensures { Wrote out.old out.new at result.at.q (blocks_bytes (rewriting_in src.now.reads.now)) ×
        (Noted src.now.reads.now names.new result.count.total × ((result.at.q ≤ at + longest_blocks) ×
        (each.new ≡ put each.old 0 (figures_in src.now.reads.now)))) }
{
    let layout = read_layout::layout_at(src.reads, src.end);
    let source = Source {
        reads: src.reads,
        layout,
        types: src.types,
    };
    let from = Spot {
        p: layout.end + 2,
        q: at,
    };
    lvn_blocks::blocks_lvn(st, &source, names, each, out, from)
}

// All that stands before the blocks: L, version, A and N, the names, B; the place behind it. rest: L; row: the names of which K = 0, 1, ..
// are made.
pub fn put_front(src: &Opened, row: &[u16], out: &mut [u8], rest: u32) -> usize
    requires { Front src.now row.now }
    ensures { Wrote out.old out.new 0 result (join (be 4 rest ∷ front_parts (rewriting_in src.now.reads.now))) ×
        ((result ≤ longest_front) × (src.now.end + 2 ≤ result)) }
{
    let s = src.reads;
    let version = read_fields::u8_at(s, 4);
    let args = read_fields::u8_at(s, 5);
    let count = read_layout::names_count(s) + row.len() as u16;
    write_bytes::put_u32(out, 0, rest);
    write_names::put_record_head(out, version, args, count);
    let p = write_names::copy_names(s, out, src.end);
    let names = Names {
        bytes: s,
        places: src.places,
    };
    let q = names.put_made_names(out, p, row);
    write_bytes::put_u16(out, q, src.blocks());
    q + 2
}

// How many bytes that is.
pub fn front_size(src: &Opened, row: &[u16]) -> usize
    requires { Front src.now row.now }
    ensures { (result ≡ length (join (be 4 0 ∷ front_parts (rewriting_in src.now.reads.now)))) ×
        ((result ≤ longest_front) × (src.now.end + 2 ≤ result)) }
{
    let names = Names {
        bytes: src.reads,
        places: src.places,
    };
    src.end + 2 + names.made_size(row)
}

// How many bytes and saves the rewriting has, by the blocks written to nothing; and the names that are made, and the instructions of each
// block.
pub fn measure(st: &mut BlockState, src: &Opened, names: &mut [u16], each: &mut [u16]) -> Totals
    requires { Ready src.now names.old }
    ensures { (result.bytes ≡ length (bytes (rewriting_in src.now.reads.now))) ×
        (Noted src.now.reads.now names.new result.saves × ((result.bytes ≤ longest_rewriting) ×
        ((each.new ≡ put each.old 0 (figures_in src.now.reads.now)) × (result.saves < 65536)))) }
{
    let b = put_blocks(st, src, names, each, &mut [], 0);
    let at = front_size(src, &names[..usize::from(b.count.total)]);
    Totals {
        bytes: at + b.at.q,
        saves: usize::from(b.count.total),
    }
}

// The rewriting, whose size is known.
pub fn put_record(
    st: &mut BlockState,
    src: &Opened,
    names: &mut [u16],
    out: &mut [u8],
    size: Totals,
)
    requires { Ready src.now names.old × (Noted src.now.reads.now names.old size.saves ×
        ((size.bytes ≡ length (bytes (rewriting_in src.now.reads.now))) × (size.bytes ≤ longest_rewriting))) }
    ensures { out.new ≡ put out.old 0 (bytes (rewriting_in src.now.reads.now)) }
{
    let row = &names[..size.saves];
    let at = put_front(src, row, out, (size.bytes - 4) as u32);
    put_blocks(st, src, names, &mut [], out, at);
}

// The rewriting, where the output has room: the blocks are written behind the input's names and moved behind the made ones, then what
// stands before them.
pub fn put_once(st: &mut BlockState, src: &Opened, names: &mut [u16], out: &mut [u8]) -> Totals
    requires { Ready src.now names.old × (length (bytes (rewriting_in src.now.reads.now)) ≤ length out.old) }
    ensures { (result.bytes ≡ length (bytes (rewriting_in src.now.reads.now))) ×
        ((result.saves ≡ length (made (record_in src.now.reads.now))) ×
        ((out.new ≡ put out.old 0 (bytes (rewriting_in src.now.reads.now))) × (result.saves < 65536))) }
{
    let from = src.end + 2;
    let b = put_blocks(st, src, names, &mut [], out, from);
    let n = b.at.q - from;
    let row = &names[..usize::from(b.count.total)];
    let at = front_size(src, row);
    write_bytes::move_up(out, from, at, n);
    put_front(src, row, out, (at + n - 4) as u32);
    Totals {
        bytes: at + n,
        saves: usize::from(b.count.total),
    }
}

// The answer, by way of the size.
pub fn rewrite_measured(
    st: &mut BlockState,
    src: &Opened,
    names: &mut [u16],
    out: &mut [u8],
) -> Result<Totals, RewriteError>
    requires { Ready src.now names.old }
    ensures { Answered src.now.reads.now out.old result out.new }
{
    let size = measure(st, src, names, &mut []);
    if out.len() < size.bytes {
        return Err(RewriteError::Room(size.bytes));
    }
    put_record(st, src, names, out, size);
    Ok(size)
}

// Of an accepted record. names: a table for what each K saves. A rewriting has at most eight bytes for each of the input, so an output that
// long has room.
pub fn rewrite_noting(
    src: &Opened,
    names: &mut [u16],
    out: &mut [u8],
) -> Result<Totals, RewriteError>
    requires { Ready src.now names.old }
    ensures { Answered src.now.reads.now out.old result out.new }
{
    let mut st = BlockState::new();
    if out.len() / 8 >= src.reads.len() {
        return Ok(put_once(&mut st, src, names, out));
    }
    rewrite_measured(&mut st, src, names, out)
}

// Lends `then` a table for what each K saves, and out, and hands back its answer. The table is an array of this function, long enough for so many
// blocks; all of it is zeros at first, so that one block, or up to four, get a shorter one. The contract says: `then` is called with a table that
// is long enough (names) and with out as it was (o); its answer is the answer, and what it leaves in o (written) is what out is left with.
pub fn with_table<T, R, F: FnOnce(&mut [u16], &mut [T]) -> R>(
    blocks: u64,
    out: &mut [T],
    then: F,
) -> R
    requires few { most_body * blocks ≤ most_saves }
    requires callable { (names : _) (o : _) → most_body * blocks ≤ length names.now → o.now ≡ out.old → F.pre then names o }
    ensures { (names : _) × (filled : _) × (o : _) × (written : _) × ((most_body * blocks ≤ length names.now) ×
        ((o.now ≡ out.old) × ((written.now ≡ out.new) × F.post then names o result filled written))) }
{
    if blocks <= 1 {
        then(&mut [0; SAVES], out)
    } else if blocks <= 4 {
        then(&mut [0; 4 * SAVES], out)
    } else {
        then(&mut [0; BLOCKS * SAVES], out)
    }
}

// rewrite_noting over a table that is long enough.
pub fn rewrite_typed(src: &Opened, out: &mut [u8]) -> Result<Totals, RewriteError>
    requires { Typed src.now }
    ensures { Answered src.now.reads.now out.old result out.new }
{
    let noting = |names: &mut [u16], o: &mut [u8]|
        requires { Ready src.now names.old }
        ensures { Answered src.entry.now.reads.now o.old result o.new }
    { rewrite_noting(src, names, o) };
    with_table(u64::from(src.blocks()), out, noting)
}

// Lends `then` an accepted record laid open, and out, and hands back its answer. The contract says: `then` is called with a record of these bytes
// of which all holds that Typed says (src) and with out as it was (o); its answer is the answer, and what it leaves in o (written) is what out is
// left with. That the record is accepted is asked here and by rewrite_accepted, figures_accepted and engine's run_accepted. No plainer: an entry
// calls each of these three when it has just checked, and a struct of checked bytes would be made for that one call.
pub fn with_opened<T, R, F: FnOnce(&Opened, &mut [T]) -> R>(s: &[u8], out: &mut [T], then: F) -> R
    requires accepted { checked s.now ≡ Ok tt }
    requires callable { (src : _) (o : _) → src.now.reads.now ≡ s.now → Typed src.now → o.now ≡ out.old → F.pre then src o }
    ensures { (src : _) × (o : _) × (written : _) × (src.now.reads.now ≡ s.now) × Typed src.now × (o.now ≡ out.old) ×
        (written.now ≡ out.new) × F.post then src o result written }
{
    let mut types = [0u8; NAMES];
    let mut places = [0u32; NAMES];
    let layout = read_layout::layout_of(s, &mut types, &mut places);
    let src = Opened {
        reads: s,
        types: &types[..usize::from(layout.names)],
        places: &places,
        end: layout.end,
    };
    then(&src, out)
}

// Of an accepted record.
pub fn rewrite_accepted(s: &[u8], out: &mut [u8]) -> Result<Totals, RewriteError>
    requires { checked s.now ≡ Ok tt }
    ensures { (result ≡ rewrite s.now out.old) ×
        (out.new ≡ rewrite_leaves s.now out.old) }
{
    with_opened(s, out, rewrite_typed)
}

// The rewriting of a record, written whole or not at all: its bytes and saves, check's refusal, or the bytes that the output is too
// short for.
pub fn rewrite(input: &[u8], output: &mut [u8]) -> Result<Totals, RewriteError>
    ensures { (result ≡ rewrite input.now output.old) ×
        (output.new ≡ rewrite_leaves input.now output.old) }
{
    checker::check(input)?;
    rewrite_accepted(input, output)
}
