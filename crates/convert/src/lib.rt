// Widening and narrowing: an accepted record written in the version that is wanted. Each id is read in the one width and written in the other;
// all else is copied as it stands. Before the first byte is written, every id has been read, and the room is known to be enough.
#![tactic(auto)]

ghost use Rattle.std.specs.Prelude.{Ok, Err, ◌≡◌, ◌+◌, ◌*◌, ◌^◌, ◌<◌, ◌≤◌, length, ltb};
ghost use Rattle.record.specs.Record.{id_bytes};
ghost use Rattle.record.specs.Reader.{num_at};
ghost use Rattle.record.specs.Write.{row_bytes, instr_bytes, block_bytes, bytes};
ghost use Rattle.record.specs.Tests.{version_test};
ghost use Rattle.record.specs.Answer.{checked};
ghost use Rattle.record.specs.Good.{Each};
ghost use Rattle.record.specs.Ranged.{RangedInstr, RangedBlock};
ghost use Rattle.record.specs.Decode.{body_placed, behind, instr_from, instr_end, block_end, id_width, record_from};
ghost use Rattle.record.specs.Again.{instrs_from, instrs_end, block_in, blocks_in, blocks_behind, record_in};
ghost use Rattle.record.specs.Sizes.{places_end};
ghost use Rattle.record.specs.Versions.{in_version, converted_bytes, instructions, first_wide, convert, convert_leaves, widen, widen_leaves, narrow, narrow_leaves};
ghost use Rattle.read_fields.specs.Places.{places};
ghost use Rattle.read_layout.specs.Layout.{layout_of};
ghost use Rattle.write_bytes.specs.Put.{put};
ghost use Rattle.convert.specs.Parts.{blocks_placed, scanned, Stands, Done, Checked, Measured};

use read_layout::{Layout, Spot};
use record::ConvertError;

// The versions: that of ids of four bytes, and that of ids of eight.
const NARROW: u8 = 1;

const WIDE: u8 = 2;

// A record whose ids have FROM bytes, and the version that is wanted, in which they have TO. The widths are parameters of the type, so that each
// pair is compiled for itself: as fields, which each loop looks at again, narrowing took up to a quarter longer beyond check.
#[derive(Clone, Copy, PartialEq, Eq, Debug)]
struct Source<'a, const FROM: usize, const TO: usize> {
    reads: &'a [u8],
    version: u8,
    ghost widths: { (FROM ≡ id_width reads.now) × (TO ≡ id_bytes version) },
}

impl<const FROM: usize, const TO: usize> Source<'_, FROM, TO> {
    // ---- the ids, before anything is written
    // Whether the id of the instruction at a place has room.
    fn fits(self, at: usize) -> bool
        requires { at + 7 < places }
        ensures { result ≡ ltb (num_at self.entry.reads.now at FROM) (256 ^ TO) }
    {
        write_bytes::word_fits(TO, read_instrs::read_id(self.reads, at, FROM))
    }

    // Of n instructions from a place on, the place of the first whose id has no room; else the place behind them.
    fn scan_body(self, at: usize, n: usize) -> Result<usize, ConvertError>
        requires { behind (instr_end FROM self.reads.now) at n < places_end }
        ensures { result ≡ scanned (first_wide TO (body_placed FROM self.entry.reads.now at n))
            (behind (instr_end FROM self.entry.reads.now) at n) }
    {
        let mut p = at;
        for _ in 0..n {
            if !self.fits(p) {
                return Err(ConvertError::Wide(p));
            }
            p = read_layout::instr_end(self.reads, FROM, p);
        }
        Ok(p)
    }

    // Of n blocks from a place on, the place of the first instruction whose id has no room; else how many instructions they have.
    fn scan_blocks(self, at: usize, n: usize) -> Result<usize, ConvertError>
        requires { (behind (block_end FROM self.reads.now) at n < places_end) × (n < 65536) }
        ensures { result ≡ scanned (first_wide TO (blocks_placed FROM self.entry.reads.now at n))
            (length (blocks_placed FROM self.entry.reads.now at n)) }
    {
        let mut p = at;
        let mut count = 0;
        for _ in 0..n {
            let (size, first) = read_layout::block_head(self.reads, p);
            p = self.scan_body(first, size)?;
            count += size;
        }
        Ok(count)
    }

    // How many bytes the record has in the version that is wanted; or the place of the first instruction whose id has no room.
    fn size(self, layout: Layout) -> Result<usize, ConvertError>
        requires { Checked self.version self.reads.now × (layout ≡ layout_of self.reads.now) }
        ensures { result ≡ scanned (first_wide (id_bytes self.entry.version) (instructions (record_from self.entry.reads.now)))
            (length (converted_bytes self.entry.version (record_from self.entry.reads.now))) }
    {
        let n = self.scan_blocks(layout.end + 2, layout.blocks)?;
        Ok(self.reads.len() - n * FROM + n * TO)
    }

    // ---- what is written
    // The instruction at a place; the places behind it.
    fn put_instr(self, out: &mut [u8], at: Spot) -> Spot
        requires { Stands instr_bytes (RangedInstr TO) FROM TO self.reads.now at (instr_from FROM self.reads.now at.p)
            (instr_end FROM self.reads.now at.p) }
        ensures { Done instr_bytes TO out.old out.new at result (instr_from FROM self.entry.reads.now at.p)
            (instr_end FROM self.entry.reads.now at.p) }
    {
        let id = read_instrs::read_id(self.reads, at.p, FROM);
        let end = read_layout::instr_end(self.reads, FROM, at.p);
        let behind = at.p + FROM;
        write_bytes::put_word(out, at.q, TO, id);
        let q = write_bytes::copy_bytes(self.reads, behind, end - behind, out, at.q + TO);
        Spot { p: end, q }
    }

    // n instructions from a place on; the places behind them.
    fn put_body(self, out: &mut [u8], at: Spot, n: usize) -> Spot
        requires { Stands (row_bytes instr_bytes) (Each (λ left i. RangedInstr TO i)) FROM TO self.reads.now at
            (instrs_from FROM self.reads.now at.p n) (instrs_end FROM self.reads.now at.p n) }
        ensures { Done (row_bytes instr_bytes) TO out.old out.new at result (instrs_from FROM self.entry.reads.now at.p n)
            (instrs_end FROM self.entry.reads.now at.p n) }
    {
        let mut to = at;
        for _ in 0..n {
            to = self.put_instr(out, to);
        }
        to
    }

    // The block at a place: its count and its saves as they stand, and its instructions; the places behind it.
    fn put_block(self, out: &mut [u8], at: Spot) -> Spot
        requires { Stands block_bytes (RangedBlock TO) FROM TO self.reads.now at (block_in FROM self.reads.now at.p)
            (block_end FROM self.reads.now at.p) }
        ensures { Done block_bytes TO out.old out.new at result (block_in FROM self.entry.reads.now at.p)
            (block_end FROM self.entry.reads.now at.p) }
    {
        let count = read_fields::u16_at(self.reads, at.p);
        let saves = read_fields::u16_at(self.reads, at.p + 2);
        let first = Spot {
            p: at.p + 4,
            q: at.q + 4,
        };
        write_bytes::put_u16(out, at.q, count);
        write_bytes::put_u16(out, at.q + 2, saves);
        self.put_body(out, first, usize::from(count))
    }

    // n blocks from a place on; the places behind them.
    fn put_blocks(self, out: &mut [u8], at: Spot, n: usize) -> Spot
        requires { Stands (row_bytes block_bytes) (Each (λ left b. RangedBlock TO b)) FROM TO self.reads.now at
            (blocks_in FROM self.reads.now at.p n) (blocks_behind FROM self.reads.now at.p n) }
        ensures { Done (row_bytes block_bytes) TO out.old out.new at result (blocks_in FROM self.entry.reads.now at.p n)
            (blocks_behind FROM self.entry.reads.now at.p n) }
    {
        let mut to = at;
        for _ in 0..n {
            to = self.put_block(out, to);
        }
        to
    }

    // The record in the version that is wanted, which has so many bytes: L, the version, all up to the blocks as it stands, and the blocks.
    fn put_record(self, out: &mut [u8], layout: Layout, size: u32)
        requires { Measured self.version self.reads.now size × (layout ≡ layout_of self.reads.now) }
        ensures { out.new ≡ put out.old 0 (bytes (in_version self.entry.version (record_in self.entry.reads.now))) }
    {
        write_bytes::put_u32(out, 0, size - 4);
        write_bytes::put_u8(out, 4, self.version);
        let p = layout.end + 2;
        let q = write_bytes::copy_bytes(self.reads, 5, p - 5, out, 5);
        self.put_blocks(out, Spot { p, q }, layout.blocks);
    }

    // That record written whole or not at all: how many bytes are written; or the place of the first instruction whose id has no room, or the
    // bytes that the output is too short for.
    fn put(self, out: &mut [u8], layout: Layout) -> Result<usize, ConvertError>
        requires { Checked self.version self.reads.now × (layout ≡ layout_of self.reads.now) }
        ensures { (result ≡ convert self.entry.version self.entry.reads.now out.old) ×
            (out.new ≡ convert_leaves self.entry.version self.entry.reads.now out.old) }
    {
        let size = self.size(layout)?;
        if out.len() < size {
            return Err(ConvertError::Room(size));
        }
        // as: the number fits, or u32 and usize have no From; try_from would give an error that cannot happen.
        self.put_record(out, layout, size as u32);
        Ok(size)
    }
}

// The record in a version, whose ids have TO bytes: how many bytes are written; or check's refusal, or why an accepted record is not written.
fn convert<const TO: usize>(
    input: &[u8],
    output: &mut [u8],
    version: u8,
) -> Result<usize, ConvertError>
    requires { (version_test version ≡ Ok tt) × (TO ≡ id_bytes version) }
    ensures { (result ≡ convert version input.now output.old) × (output.new ≡ convert_leaves version input.now output.old) }
{
    checker::check(input)?;
    let layout = read_layout::head_of(input);
    if layout.width == 8 {
        return Source::<8, TO> {
            reads: input,
            version,
        }
        .put(output, layout);
    }
    Source::<4, TO> {
        reads: input,
        version,
    }
    .put(output, layout)
}

// The record with ids of eight bytes, which have room for each id.
#[tactic(auto, unfolding(record::specs::Tests::version_test, record::specs::Record::id_bytes))]
pub fn widen(input: &[u8], output: &mut [u8]) -> Result<usize, ConvertError>
    ensures { (result ≡ widen input.now output.old) × (output.new ≡ widen_leaves input.now output.old) }
{
    convert::<8>(input, output, WIDE)
}

// The record with ids of four bytes, where each id is below 2^32.
#[tactic(auto, unfolding(record::specs::Tests::version_test, record::specs::Record::id_bytes))]
pub fn narrow(input: &[u8], output: &mut [u8]) -> Result<usize, ConvertError>
    ensures { (result ≡ narrow input.now output.old) × (output.new ≡ narrow_leaves input.now output.old) }
{
    convert::<4>(input, output, NARROW)
}
