// Arithmetic on ints by their words, as arith's specs/Word.antt has it.
#![tactic(auto)]

ghost use Rattle.std.specs.Prelude.{◌≡◌, ◌<◌};
ghost use Rattle.arith.specs.Word.{add_w, sub_w, mul_w, div_w, lt_w, negative, size};
ghost use Rattle.arith.specs.Operation.{divide};
ghost use Rattle.words.specs.View.{quotient_of, result_of};

// The sum, modulo 2^64.
#[tactic(auto, unfolding(arith::specs::Word::add_w))]
pub fn add(a: u64, b: u64) -> u64
    ensures { result ≡ add_w a b }
{
    a.wrapping_add(b)
}

// The difference, modulo 2^64.
#[tactic(auto, unfolding(arith::specs::Word::sub_w))]
pub fn sub(a: u64, b: u64) -> u64
    ensures { result ≡ sub_w a b }
{
    a.wrapping_sub(b)
}

// The product, modulo 2^64.
#[tactic(auto, unfolding(arith::specs::Word::mul_w))]
pub fn mul(a: u64, b: u64) -> u64
    ensures { result ≡ mul_w a b }
{
    a.wrapping_mul(b)
}

// Whether a word is that of an int below zero. Nothing calls this or `size`: they say in code what `div_w` of arith is made of.
pub fn negative(a: u64) -> bool
    ensures { result ≡ negative a }
{
    a.cast_signed() < 0
}

// The size of an int.
pub fn size(a: u64) -> u64
    ensures { result ≡ size a }
{
    a.cast_signed().unsigned_abs()
}

// The quotient toward zero, modulo 2^64, where the divisor is not 0.
#[tactic(auto, using(crate::proofs::Division::quotient))]
pub fn div(a: u64, b: u64) -> u64
    requires { 0 < b }
    ensures { result ≡ div_w a b }
{
    a.cast_signed()
        .wrapping_div(b.cast_signed())
        .cast_unsigned()
}

// The quotient's word; a division by 0 stops, and has none.
#[tactic(auto, unfolding(arith::specs::Operation::divide, crate::specs::View::quotient_of, crate::specs::View::result_of))]
pub fn divide(a: u64, b: u64) -> Option<u64>
    ensures { quotient_of result ≡ result_of (divide a b) }
{
    if b == 0 {
        return None;
    }
    Some(div(a, b))
}

// Whether a is less than b as a signed int.
#[tactic(auto, using(crate::proofs::Division::order))]
pub fn less(a: u64, b: u64) -> bool
    ensures { result ≡ lt_w a b }
{
    a.cast_signed() < b.cast_signed()
}
