// The operators of the value codes 1 to 14, grouped by how many operands they have.
#![tactic(auto)]

ghost use Rattle.std.specs.Prelude.{◌≡◌};
ghost use Rattle.arith.specs.Code.{code1, code2};

#[derive(Clone, Copy, PartialEq, Eq, Debug)]
pub enum One {
    Not,
    Id,
}

#[derive(Clone, Copy, PartialEq, Eq, Debug)]
pub enum Two {
    Add,
    Sub,
    Mul,
    Div,
    Eq,
    Lt,
    Gt,
    Le,
    Ge,
    And,
    Or,
    PtrAdd,
}

// Document 01's codes of the operators.
impl From<One> for u8 {
    ghost from_gives = { λ o n. n ≡ code1 o };

    #[tactic(auto, unfolding(crate::specs::Code::code1))]
    fn from(o: One) -> u8 {
        match o {
            One::Not => 10,
            One::Id => 13,
        }
    }
}

impl From<Two> for u8 {
    ghost from_gives = { λ o n. n ≡ code2 o };

    #[tactic(auto, unfolding(crate::specs::Code::code2))]
    fn from(o: Two) -> u8 {
        match o {
            Two::Add => 1,
            Two::Sub => 2,
            Two::Mul => 3,
            Two::Div => 4,
            Two::Eq => 5,
            Two::Lt => 6,
            Two::Gt => 7,
            Two::Le => 8,
            Two::Ge => 9,
            Two::And => 11,
            Two::Or => 12,
            Two::PtrAdd => 14,
        }
    }
}
