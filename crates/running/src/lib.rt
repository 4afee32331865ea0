// Running an accession: definitions in specs/, and the types that they share with the code.
#![tactic(auto)]

ghost use Rattle.std.specs.Prelude.{◌≡◌, Err};
ghost use Rattle.running.specs.declared.RunError.TheVariants.{Refused};
ghost use Rattle.running.specs.Engine.{engine_answer};

use record::Fault;

// How a run ended: at the end, by ret, halt, unset or a division by zero, which is told by its id; or the limit is spent.
#[derive(Clone, Copy, PartialEq, Eq, Debug)]
pub enum Ending {
    End,
    Ret,
    Halt,
    Unset,
    Division(u64),
    Limit,
}

// What a run comes to: the bytes of the events and of the store, the steps, and how it ended.
#[derive(Clone, Copy, PartialEq, Eq, Debug)]
pub struct Run {
    pub events: usize,
    pub store: usize,
    pub steps: u64,
    pub ending: Ending,
}

// Why the engine writes nothing: a refusal of check; 13; or 14, with the bytes that the events and the store need.
#[derive(Clone, Copy, PartialEq, Eq, Debug)]
pub enum RunError {
    Refused(Fault),
    Unfit,
    Room(usize, usize),
}

impl RunError {
    // Its number. RunError is not of numbering's trait Refuses, by which a refusal has one value: 14 goes with two.
    #[tactic(auto, unfolding(crate::specs::Engine::engine_answer))]
    pub fn number(self) -> u8
        ensures { result ≡ (engine_answer (Err self)).number }
    {
        match self {
            RunError::Refused(f) => u8::from(f.refusal),
            RunError::Unfit => 13,
            RunError::Room(..) => 14,
        }
    }
}

impl From<Fault> for RunError {
    ghost from_gives = { λ f e. e ≡ Refused f };

    fn from(f: Fault) -> RunError {
        RunError::Refused(f)
    }
}
