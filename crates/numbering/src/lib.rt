// The types that the definitions of local value numbering and the code share.
#![tactic(auto)]

ghost use Rattle.std.specs.Prelude.{◌≡◌, [], ◌∷◌, Err};
ghost use Rattle.numbering.specs.declared.RewriteError.TheVariants.{Refused as rewrite_refused};
ghost use Rattle.numbering.specs.declared.FiguresError.TheVariants.{Refused as figures_refused};
ghost use Rattle.numbering.specs.declared.NameError.TheVariants.{Refused as name_refused};
ghost use Rattle.numbering.specs.Rewrite.{rewrite_answer};
ghost use Rattle.numbering.specs.Figures.{figures_answer};
ghost use Rattle.numbering.specs.NameText.{name_answer};

use arith::{One, Two};
use record::{Fault, Refuses};

// A value number. Name indexes are another kind, NameIx of the crate record.
#[derive(Clone, Copy, PartialEq, Eq, PartialOrd, Ord, Debug)]
pub struct ValNum(pub u16);

// A constant that is numbered: an int, or an int literal in a float, which is the value "that literal", by its word; or a bool.
#[derive(Clone, Copy, PartialEq, Eq, Debug)]
pub enum Constant {
    Int(u64),
    IntAsFloat(u64),
    Bool(bool),
}

// A value expression which is given a value number, by form. Of Unique nothing is known.
#[derive(Clone, Copy, PartialEq, Eq, Debug)]
pub enum Value {
    Unique,
    Constant(Constant),
    One(One, ValNum),
    Two(Two, ValNum, ValNum),
}

// What a rewriting comes to: its bytes and its saves.
#[derive(Clone, Copy, PartialEq, Eq, Debug)]
pub struct Totals {
    pub bytes: usize,
    pub saves: usize,
}

// Why rewrite writes nothing: a refusal of check; or the output is too small for so many bytes.
#[derive(Clone, Copy, PartialEq, Eq, Debug)]
pub enum RewriteError {
    Refused(Fault),
    Room(usize),
}

impl Refuses for RewriteError {
    ghost answer = { λ e. rewrite_answer (Err e) };

    #[tactic(auto, unfolding(crate::specs::Rewrite::rewrite_answer))]
    fn number(self) -> u8 {
        match self {
            RewriteError::Refused(f) => u8::from(f.refusal),
            RewriteError::Room(_) => 9,
        }
    }

    #[tactic(auto, unfolding(crate::specs::Rewrite::rewrite_answer))]
    fn value(self) -> usize {
        match self {
            RewriteError::Refused(f) => f.offset,
            RewriteError::Room(n) => n,
        }
    }
}

impl From<Fault> for RewriteError {
    ghost from_gives = { λ f e. e ≡ rewrite_refused f };

    fn from(f: Fault) -> RewriteError {
        RewriteError::Refused(f)
    }
}

// Why figures counts nothing: a refusal of check; or there are fewer places than blocks.
#[derive(Clone, Copy, PartialEq, Eq, Debug)]
pub enum FiguresError {
    Refused(Fault),
    TooFew,
}

impl Refuses for FiguresError {
    ghost answer = { λ e. figures_answer (Err e) };

    #[tactic(auto, unfolding(crate::specs::Figures::figures_answer))]
    fn number(self) -> u8 {
        match self {
            FiguresError::Refused(f) => u8::from(f.refusal),
            FiguresError::TooFew => 12,
        }
    }

    #[tactic(auto, unfolding(crate::specs::Figures::figures_answer))]
    fn value(self) -> usize {
        match self {
            FiguresError::Refused(f) => f.offset,
            FiguresError::TooFew => 0,
        }
    }
}

impl From<Fault> for FiguresError {
    ghost from_gives = { λ f e. e ≡ figures_refused f };

    fn from(f: Fault) -> FiguresError {
        FiguresError::Refused(f)
    }
}

// Why name text hands back no text: a refusal; or the rewriting does not belong to the input.
#[derive(Clone, Copy, PartialEq, Eq, Debug)]
pub enum NameError {
    Refused(Fault),
    Mismatch,
}

impl Refuses for NameError {
    ghost answer = { λ e. name_answer (Err e) };

    #[tactic(auto, unfolding(crate::specs::NameText::name_answer))]
    fn number(self) -> u8 {
        match self {
            NameError::Refused(f) => u8::from(f.refusal),
            NameError::Mismatch => 11,
        }
    }

    #[tactic(auto, unfolding(crate::specs::NameText::name_answer))]
    fn value(self) -> usize {
        match self {
            NameError::Refused(f) => f.offset,
            NameError::Mismatch => 0,
        }
    }
}

impl From<Fault> for NameError {
    ghost from_gives = { λ f e. e ≡ name_refused f };

    fn from(f: Fault) -> NameError {
        NameError::Refused(f)
    }
}
