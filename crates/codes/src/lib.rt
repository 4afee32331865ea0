// The operations of codes, and the kinds and bits of literals.
#![tactic(auto)]

ghost use Rattle.std.specs.Prelude.{◌≡◌};
ghost use Rattle.std.specs.Float.{binary64};
ghost use Rattle.std.specs.Float.Ieee.{to_bits};
ghost use Rattle.record.specs.Good.{LitOk};
ghost use Rattle.record.specs.Answer.{literal_of};
ghost use Rattle.codes.specs.Op.{op_of};

use arith::{One, Two};
use record::{BOOL, CHAR, FLOAT, INT, Literal, Op};

// ---- the operation of a code
// All codes from 64 on but those of jmp, br, ret and nop are effects that ask the world. A function, and no From<u8> for Op: that would stand in
// record, with the definition of op_of and the laws of it that are here, and say no more to the two who call it. Inlined, since a
// run calls it at each step.
#[inline(always)]
#[tactic(auto, using(crate::proofs::Op::new_op, crate::proofs::Op::effect_op), unfolding(crate::specs::Op::op_of, arith::specs::Opened::all_of_arith))]
pub fn op_of(code: u8) -> Op
    ensures { result ≡ op_of code }
{
    match code {
        0 => Op::Const,
        1 => Op::Two(Two::Add),
        2 => Op::Two(Two::Sub),
        3 => Op::Two(Two::Mul),
        4 => Op::Two(Two::Div),
        5 => Op::Two(Two::Eq),
        6 => Op::Two(Two::Lt),
        7 => Op::Two(Two::Gt),
        8 => Op::Two(Two::Le),
        9 => Op::Two(Two::Ge),
        10 => Op::One(One::Not),
        11 => Op::Two(Two::And),
        12 => Op::Two(Two::Or),
        13 => Op::One(One::Id),
        14 => Op::Two(Two::PtrAdd),
        15..=63 => Op::New(code),
        64 => Op::Jmp,
        65 => Op::Br,
        66 => Op::Ret,
        69 => Op::Nop,
        _ => Op::Effect(code),
    }
}

// ---- literals
// The bits of a float; those of one NaN for a NaN, which no literal holds.
#[tactic(auto, using(crate::proofs::Literal::nan_bits))]
fn float_bits(x: f64) -> u64
    ensures { result ≡ to_bits binary64 x }
{
    if x.is_nan() {
        0x7FF8_0000_0000_0000
    } else {
        x.to_bits()
    }
}

// The float of these bits, or the bits of a NaN. Asked of the bits, since from_bits asks that they are none of a NaN.
fn float_literal(b: u64) -> Literal
    ensures { literal_of result ≡ record { kind = 2; bits = b } }
{
    let m = b % 0x8000_0000_0000_0000;
    if m > 0x7FF0_0000_0000_0000 {
        Literal::Nan(b)
    } else {
        Literal::Float(f64::from_bits(b))
    }
}

// The literal of this kind and these bits.
#[tactic(auto, using(crate::proofs::Literal::of_int, crate::proofs::Literal::of_bool, crate::proofs::Literal::of_char, crate::proofs::Literal::char_fits))]
pub fn literal_of(kind: u64, bits: u64) -> Literal
    requires { LitOk (record { kind = kind; bits = bits }) }
    ensures { literal_of result ≡ record { kind = kind; bits = bits } }
{
    match u8::try_from(kind) {
        Ok(INT) => Literal::Int(bits.cast_signed()),
        Ok(BOOL) => Literal::Bool(bits == 1),
        Ok(FLOAT) => float_literal(bits),
        // as: the number fits, or u64 and usize have no From; try_from would give an error that cannot happen.
        _ => Literal::Char(bits as u32),
    }
}

#[tactic(auto, unfolding(record::specs::Answer::literal_of))]
pub fn literal_kind(l: Literal) -> u8
    ensures { result ≡ (literal_of l).kind }
{
    match l {
        Literal::Int(_) => INT,
        Literal::Bool(_) => BOOL,
        Literal::Float(_) | Literal::Nan(_) => FLOAT,
        Literal::Char(_) => CHAR,
    }
}

#[tactic(auto, unfolding(record::specs::Answer::literal_of))]
pub fn literal_bits(l: Literal) -> u64
    ensures { result ≡ (literal_of l).bits }
{
    match l {
        Literal::Int(z) => z.cast_unsigned(),
        Literal::Bool(b) => u64::from(b),
        Literal::Float(x) => float_bits(x),
        Literal::Nan(b) => b,
        Literal::Char(c) => u64::from(c),
    }
}
