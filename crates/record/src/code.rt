// The code of an operation. By itself, since its clause names a definition that rests on the types of lib.rt.
#![tactic(auto)]

ghost use Rattle.std.specs.Prelude.{◌≡◌};
ghost use Rattle.record.specs.View.{code_of};

use crate::Op;

impl From<Op> for u8 {
    ghost from_gives = { λ op n. n ≡ code_of op };

    #[tactic(auto, unfolding(crate::specs::View::code_of))]
    fn from(op: Op) -> u8 {
        match op {
            Op::Const => 0,
            Op::One(o) => u8::from(o),
            Op::Two(o) => u8::from(o),
            Op::New(c) => c,
            Op::Effect(c) => c,
            Op::Nop => 69,
            Op::Jmp => 64,
            Op::Br => 65,
            Op::Ret => 66,
        }
    }
}
