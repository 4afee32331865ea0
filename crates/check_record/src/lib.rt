// A record from its length to its end: the definition of reading with its value forgotten.
#![tactic(auto)]

ghost use Rattle.std.specs.Prelude.{◌≡◌};
ghost use Rattle.record.specs.Reader.{field};
ghost use Rattle.record.specs.Tests.{length_test, version_test, names_test};
ghost use Rattle.record.specs.Read.{length_field, end, contents, read};
ghost use Rattle.record.specs.Answer.{verdict};
ghost use Rattle.read_fields.specs.Answer.{res};
ghost use Rattle.check_record.specs.Parts.{names_and_blocks};

use check_blocks::Counts;
use read_fields::{Next, Num, Test, fault, field_tested, limited};
use record::{ARGS, BLOCKS, Limits, Refusal};

// ---- tests
// As many bytes as follow.
#[tactic(auto, unfolding(record::specs::Tests::length_test))]
pub fn length_test(rest: u64, l: u64) -> Test
    ensures { result ≡ length_test rest l }
{
    read_fields::need(l == rest, Refusal::Length)
}

// One of the two versions.
#[tactic(auto, unfolding(record::specs::Tests::version_test))]
pub fn version_test(v: u64) -> Test
    ensures { result ≡ version_test v }
{
    read_fields::need(v == 1 || v == 2, Refusal::Version)
}

// At most so many names, and not fewer than arguments.
#[tactic(auto, unfolding(record::specs::Tests::names_test))]
pub fn names_test(most: u64, args: u64, n: u64) -> Test
    ensures { result ≡ names_test most args n }
{
    read_fields::need(n <= most && args <= n, Refusal::Limit)
}

// ---- fields
// L, which counts all that follows it.
#[tactic(auto, unfolding(record::specs::Read::length_field))]
pub fn length_at(s: &[u8], at: usize) -> Num
    ensures { res result ≡ length_field s.now at }
{
    // as: u64 and usize have no From; try_from would give an error that cannot happen.
    let rest = read_fields::left(s, 4) as u64;
    field_tested::<4, _>(s, at, |l| length_test(rest, l))
}

// The version.
pub fn version_at(s: &[u8], at: usize) -> Num
    ensures { res result ≡ field 1 version_test s.now at }
{
    field_tested::<1, _>(s, at, |v| version_test(v))
}

// N, where A is args.
pub fn name_count_at(s: &[u8], at: usize, most: u64, args: u64) -> Num
    ensures { res result ≡ field 2 (names_test most args) s.now at }
{
    field_tested::<2, _>(s, at, |n| names_test(most, args, n))
}

// The end: no byte is left over.
pub fn end_at(s: &[u8], at: usize) -> Next
    ensures { result ≡ verdict (end s.now at) }
{
    if at < s.len() {
        return Err(fault(Refusal::Length, at));
    }
    Ok(at)
}

// ---- the record
// The names, B and the blocks; width: the bytes of an id.
pub fn names_and_blocks_at(s: &[u8], at: usize, lim: Limits, width: usize, names: u64) -> Next
    ensures { result ≡ verdict (names_and_blocks lim width names s.now at) }
{
    let p = check_names::names_at(lim, s, at, names)?;
    // as: u64 and usize have no From; try_from would give an error that cannot happen.
    let (blocks, q) = limited::<2>(s, p, BLOCKS as u64)?;
    check_blocks::check_blocks(
        s,
        q,
        lim,
        Counts {
            width,
            names,
            blocks,
        },
    )
}

// What stands between L and the end: version, A, N, the names, B, the blocks.
pub fn contents_at(s: &[u8], at: usize, lim: Limits) -> Next
    ensures { result ≡ verdict (contents lim s.now at) }
{
    let (version, p) = version_at(s, at)?;
    let (args, q) = limited::<1>(s, p, ARGS)?;
    let (names, t) = name_count_at(s, q, lim.names, args)?;
    names_and_blocks_at(s, t, lim, read_layout::id_bytes(version), names)
}

// The whole record with these limits.
pub fn read_record(s: &[u8], lim: Limits) -> Next
    ensures { result ≡ verdict (read lim s.now 0) }
{
    let (_, p) = length_at(s, 0)?;
    let q = contents_at(s, p, lim)?;
    end_at(s, q)
}
