// Instructions written: each part answers the place behind it.
#![tactic(auto)]

ghost use Rattle.std.specs.Prelude.{◌≡◌, map, ◌+◌, ◌*◌, ◌^◌, ◌<◌, ◌≤◌, length};
ghost use Rattle.record.specs.Record.{nm};
ghost use Rattle.record.specs.Shape.{shape_of};
ghost use Rattle.record.specs.Write.{be, join, literal_bytes, argument_bytes, operand_bytes, instr_bytes};
ghost use Rattle.record.specs.Answer.{literal_of};
ghost use Rattle.record.specs.View.{code_of, instr_of};
ghost use Rattle.record.specs.Sizes.{longest_operands, longest_instr};
ghost use Rattle.read_fields.specs.Places.{places};
ghost use Rattle.write_bytes.specs.Put.{Wrote, IdWidth};
ghost use Rattle.write_instrs.specs.There.{literal_size, longest_arguments, if_there, value_bytes};

use record::{Instruction, Literal, Shape};

// A number of two bytes, where it is there.
fn put_two(out: &mut [u8], at: usize, x: Option<u16>) -> usize
    requires { at + 2 < places }
    ensures { Wrote out.old out.new at result (if_there (be 2) x) × (result ≤ at + 2) }
{
    match x {
        Some(x) => {
            write_bytes::put_u16(out, at, x);
            at + 2
        }
        None => at,
    }
}

// The numbers of a row, two bytes each.
fn put_row(out: &mut [u8], at: usize, row: &[u16]) -> usize
    requires { at + 2 * length row.now < places }
    ensures { Wrote out.old out.new at result (join (map (be 2) row.now)) × (result ≡ at + 2 * length row.now) }
{
    let mut p = at;
    for x in row {
        write_bytes::put_u16(out, p, *x);
        p += 2;
    }
    p
}

// A literal.
fn put_literal(out: &mut [u8], at: usize, l: Literal) -> usize
    requires { at + literal_size < places }
    ensures { Wrote out.old out.new at result (literal_bytes (literal_of l)) × (result ≡ at + literal_size) }
{
    write_bytes::put_u8(out, at, codes::literal_kind(l));
    write_bytes::put_u64(out, at + 1, codes::literal_bits(l));
    at + 9
}

// The arguments behind their count.
fn put_args(out: &mut [u8], at: usize, args: &[u16]) -> usize
    requires { (at + longest_arguments < places) × (length args.now ≤ 8) }
    ensures { Wrote out.old out.new at result (argument_bytes (map nm args.now)) × (result ≤ at + longest_arguments) }
{
    // as: the number fits, or u64 and usize have no From; try_from would give an error that cannot happen.
    write_bytes::put_u8(out, at, args.len() as u8);
    put_row(out, at + 1, args)
}

// The literal, or the arguments where there is none.
fn put_value(out: &mut [u8], at: usize, literal: bool, i: &Instruction) -> usize
    requires { at + longest_arguments < places }
    ensures { Wrote out.old out.new at result (value_bytes literal (instr_of i.now)) × (result ≤ at + longest_arguments) }
{
    if literal {
        put_literal(out, at, i.literal)
    } else {
        put_args(out, at, i.args.as_slice())
    }
}

// What stands behind the code.
fn put_operands(out: &mut [u8], at: usize, sh: Shape, i: &Instruction) -> usize
    requires { at + longest_operands < places }
    ensures { Wrote out.old out.new at result (operand_bytes sh (instr_of i.now)) × (result ≤ at + longest_operands) }
{
    let p = put_two(out, at, sh.dest.then_some(i.dest.0));
    let q = put_value(out, p, sh.literal, i);
    let r = put_two(out, q, sh.callee.then_some(i.callee));
    put_row(out, r, i.blocks.as_slice())
}

// An instruction; w: the bytes of an id.
pub fn put_instr(out: &mut [u8], at: usize, w: usize, i: Instruction) -> usize
    requires { (at + longest_instr < places) × (IdWidth w × (i.id < 256 ^ w)) }
    ensures { Wrote out.old out.new at result (instr_bytes w (instr_of i)) × (result ≤ at + longest_instr) }
{
    let code = u8::from(i.op);
    write_bytes::put_word(out, at, w, i.id);
    write_bytes::put_u8(out, at + w, code);
    put_operands(out, at + w + 1, read_shapes::shape_of(u64::from(code)), &i)
}
