// The library for other languages: check, rewrite, figures, name text, running, widening and narrowing, called as C functions. Each returns 0,
// or the number of its refusal, and leaves the values that go with it in a lent place; include/lvn.h says the same for C. A slice is a pointer
// and a length there. C has no Result, so the number and the values stand apart.
#![tactic(auto)]

ghost use Rattle.std.specs.Prelude.{◌≡◌};
ghost use Rattle.record.specs.Answer.{check_answer, checked};
ghost use Rattle.record.specs.Versions.{convert_answer, widen, widen_leaves, narrow, narrow_leaves};
ghost use Rattle.numbering.specs.Rewrite.{rewrite_answer, rewrite, rewrite_leaves};
ghost use Rattle.numbering.specs.Figures.{figures_answer, figures, figures_leaves};
ghost use Rattle.numbering.specs.NameText.{name_answer, name_text};
ghost use Rattle.running.specs.Engine.{engine, engine_events, engine_store, engine_answer};
ghost use Rattle.exports.specs.Values.{value, values, told_as, run_values, place_values, LiesWithin};

use numbering::Totals;
use record::{ConvertError, Refuses};

// Whether the bytes are a record of a function. offset: that of the fault; 0 if there is none.
#[unsafe(no_mangle)]
#[tactic(auto, unfolding(record::specs::Answer::check_answer))]
pub extern "C" fn lvn_check(input: &[u8], offset: &mut usize) -> u8
    ensures { (result ≡ (check_answer (checked input.now)).number) ×
        (offset.new ≡ value (check_answer (checked input.now)) 0) }
{
    match checker::check(input) {
        Ok(()) => {
            *offset = 0;
            0
        }
        Err(f) => {
            *offset = f.offset;
            u8::from(f.refusal)
        }
    }
}

// The number that rewrite and figures return, and what they leave: bytes and saves; or the value of a refusal, and 0.
#[tactic(auto, unfolding(crate::specs::Values::told_as))]
fn told<E: Refuses>(a: Result<Totals, E>, answer: &mut [usize; 2]) -> u8
    ensures { (result ≡ (told_as E.answer a).number) × (answer.new ≡ values (told_as E.answer a)) }
{
    match a {
        Ok(t) => {
            *answer = [t.bytes, t.saves];
            0
        }
        Err(e) => {
            *answer = [e.value(), 0];
            e.number()
        }
    }
}

// The rewriting of a record, written whole or not at all. answer: bytes written and saves; or the offset of the fault, or the bytes needed,
// and 0.
#[unsafe(no_mangle)]
#[tactic(auto, using(crate::proofs::Answered::rewrite_told))]
pub extern "C" fn lvn_rewrite(input: &[u8], output: &mut [u8], answer: &mut [usize; 2]) -> u8
    ensures { (result ≡ (rewrite_answer (rewrite input.now output.old)).number) ×
        ((answer.new ≡ values (rewrite_answer (rewrite input.now output.old))) ×
        (output.new ≡ rewrite_leaves input.now output.old)) }
{
    told(rewrite::rewrite(input, output), answer)
}

// The figures of a record, worked out without an output. answer: the bytes that its rewriting needs and its saves, and the first places hold
// the instructions of its blocks; or the offset of the fault and 0; or 0 and 0 where there are fewer places than blocks.
#[unsafe(no_mangle)]
#[tactic(auto, using(crate::proofs::Answered::figures_told))]
pub extern "C" fn lvn_figures(input: &[u8], places: &mut [u16], answer: &mut [usize; 2]) -> u8
    ensures { (result ≡ (figures_answer (figures input.now places.old)).number) ×
        ((answer.new ≡ values (figures_answer (figures input.now places.old))) ×
        (places.new ≡ figures_leaves input.now places.old)) }
{
    told(figures::figures(input, places), answer)
}

// The place of a name's text. answer: the offset that goes with a refusal; then 0 for the input or 1 for the rewriting, where the text
// starts in it, and how many bytes it has. The place lies within that record; a refusal has the empty one at the input's start.
#[unsafe(no_mangle)]
#[tactic(auto, unfolding(numbering::specs::NameText::name_answer))]
pub extern "C" fn lvn_name_text(
    input: &[u8],
    rewriting: &[u8],
    index: usize,
    answer: &mut [usize; 4],
) -> u8
    ensures { (result ≡ (name_answer (name_text input.now rewriting.now index).answer).number) ×
        ((answer.new ≡ place_values (name_text input.now rewriting.now index)) ×
        LiesWithin (name_text input.now rewriting.now index) input.now rewriting.now) }
{
    match name_text::part_of(input, rewriting, index) {
        Ok(p) => {
            *answer = [0, usize::from(p.rewriting), p.from, p.count];
            0
        }
        Err(e) => {
            *answer = [e.value(), 0, 0, 0];
            e.number()
        }
    }
}

// Runs a record from a starting store with a list of answers, for at most `limit` steps. answer: the bytes of the events and of the final
// store, the steps, how it ended (0 the end, 1 ret, 2 halt, 3 unset, 4 a division by zero, 5 the limit is spent), and the division's id; or
// the offset of the fault and 0; or five times 0 where store or answers do not read or fit; or the bytes needed of each and 0.
#[unsafe(no_mangle)]
pub extern "C" fn lvn_run(
    record: &[u8],
    store: &[u8],
    answers: &[u8],
    limit: u64,
    events: &mut [u8],
    final_store: &mut [u8],
    answer: &mut [u64; 5],
) -> u8
    ensures { (result ≡ (engine_answer (engine «record».now store.now answers.now limit events.old final_store.old)).number) ×
        ((answer.new ≡ run_values (engine_answer (engine «record».now store.now answers.now limit events.old final_store.old))) ×
        ((events.new ≡ engine_events «record».now store.now answers.now limit events.old final_store.old) ×
        (final_store.new ≡ engine_store «record».now store.now answers.now limit events.old final_store.old))) }
{
    let ran = engine::run(record, store, answers, limit, events, final_store);
    let n = engine_answer::in_numbers(ran);
    // `*answer = n.values;` was tried: the check finds no proof of what the five places then hold.
    let values = n.values;
    *answer = values;
    n.number
}

// The number that widening and narrowing return, and what they leave: the bytes written, or the value of a refusal.
#[tactic(auto, unfolding(record::specs::Versions::convert_answer))]
fn converted(a: Result<usize, ConvertError>, answer: &mut usize) -> u8
    ensures { (result ≡ (convert_answer a).number) × (answer.new ≡ value (convert_answer a) 0) }
{
    match a {
        Ok(n) => {
            *answer = n;
            0
        }
        Err(e) => {
            *answer = e.value();
            e.number()
        }
    }
}

// The record in version 2, with ids of eight bytes, written whole or not at all. answer: the bytes written; or the offset of the fault, or the bytes
// needed.
#[unsafe(no_mangle)]
pub extern "C" fn lvn_widen(input: &[u8], output: &mut [u8], answer: &mut usize) -> u8
    ensures { (result ≡ (convert_answer (widen input.now output.old)).number) ×
        ((answer.new ≡ value (convert_answer (widen input.now output.old)) 0) ×
        (output.new ≡ widen_leaves input.now output.old)) }
{
    converted(convert::widen(input, output), answer)
}

// The record in version 1, with ids of four bytes, written whole or not at all. answer: the bytes written; or the offset of the fault, or of the
// first instruction whose id is too wide; or the bytes needed.
#[unsafe(no_mangle)]
pub extern "C" fn lvn_narrow(input: &[u8], output: &mut [u8], answer: &mut usize) -> u8
    ensures { (result ≡ (convert_answer (narrow input.now output.old)).number) ×
        ((answer.new ≡ value (convert_answer (narrow input.now output.old)) 0) ×
        (output.new ≡ narrow_leaves input.now output.old)) }
{
    converted(convert::narrow(input, output), answer)
}
