// The engine's answer in numbers, for those who hand it on.
// as: the number fits, or u64 and usize have no From; try_from would give an error that cannot happen.
#![tactic(auto)]

ghost use Rattle.std.specs.Prelude.{◌≡◌, ◌≤◌, length, take};
ghost use Rattle.running.specs.Engine.{ending_values, engine_answer};
ghost use Rattle.engine_answer.specs.Five.{first_five};

use running::{Ending, Run, RunError};

// The answer's number, its values with 0 where it has none, and how many it has. The values are the bytes of the events and of the store, the
// steps, how the run ended, and the id of a division; of a refusal the first is its offset; of 14 the first two are the bytes needed.
// Five values and a count, since there is no heap: C lends five places, and has 0 where there is no value; the program writes only those that
// there are, by `given`.
#[derive(Clone, Copy, PartialEq, Eq, Debug)]
pub struct Numbers {
    pub number: u8,
    pub values: [u64; 5],
    pub count: usize,
    ghost few: { count ≤ 5 },
}

impl Numbers {
    // The values that it has.
    pub fn given(&self) -> &[u64]
        ensures { result.now ≡ take self.now.count self.now.values }
    {
        &self.values[..self.count]
    }
}

// How a run ended: 0 for the end, 1 for ret, 2 for halt, 3 for unset, 4 for a division by zero, 5 for a limit that is spent; and the id of the
// division, 0 where it ended otherwise.
#[tactic(auto, unfolding(running::specs::Engine::ending_values))]
pub fn ending_values(how: Ending) -> [u64; 2]
    ensures { result ≡ ending_values how }
{
    match how {
        Ending::End => [0, 0],
        Ending::Ret => [1, 0],
        Ending::Halt => [2, 0],
        Ending::Unset => [3, 0],
        Ending::Division(id) => [4, id],
        Ending::Limit => [5, 0],
    }
}

// The answer in numbers: 0 for a run that is done, or the number of a refusal.
#[tactic(auto, unfolding(running::specs::Engine::engine_answer))]
pub fn in_numbers(a: Result<Run, RunError>) -> Numbers
    ensures number { result.number ≡ (engine_answer a).number }
    ensures values { result.values ≡ first_five (engine_answer a).values }
    ensures given { take result.count result.values ≡ (engine_answer a).values }
    ensures count { (result.count ≡ length (engine_answer a).values) × (result.count ≤ 5) }
{
    match a {
        Ok(run) => {
            let [how, id] = ending_values(run.ending);
            Numbers {
                number: 0,
                values: [run.events as u64, run.store as u64, run.steps, how, id],
                count: 5,
            }
        }
        Err(e @ RunError::Refused(f)) => Numbers {
            number: e.number(),
            values: [f.offset as u64, 0, 0, 0, 0],
            count: 1,
        },
        Err(e @ RunError::Unfit) => Numbers {
            number: e.number(),
            values: [0; 5],
            count: 1,
        },
        Err(e @ RunError::Room(events, store)) => Numbers {
            number: e.number(),
            values: [events as u64, store as u64, 0, 0, 0],
            count: 2,
        },
    }
}
