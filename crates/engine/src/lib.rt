// Running an accession: the plain machine over a record, a starting store and a list of answers, up to a limit of steps. What a run comes to
// is learnt first; then it is run again from its first event on, and its events are written.
// as: u64 and usize have no From; try_from would give an error that cannot happen.
#![tactic(auto)]

ghost use Rattle.std.specs.Prelude.{◌≡◌, Ok};
ghost use Rattle.record.specs.Answer.{checked};
ghost use Rattle.running.specs.Engine.{engine, engine_events, engine_store};
ghost use Rattle.engine.specs.Opened.{ended_by, Opened, Begun, Engine};

use engine_cells::Cells;
use engine_events::Turn;
use engine_quiet::{Ground, Over, Spot};
use record::{BLOCKS, NAMES};
use running::{Ending, Run, RunError};

// How a run ended, by where it stands or how it is over; or that an answer did not fit.
fn ending(spot: Result<Spot, Over>) -> Result<Ending, RunError>
    ensures { result ≡ ended_by spot }
{
    match spot {
        Ok(_) => Ok(Ending::Limit),
        Err(Over::End) => Ok(Ending::End),
        Err(Over::Ret) => Ok(Ending::Ret),
        Err(Over::Halt) => Ok(Ending::Halt),
        Err(Over::Unset) => Ok(Ending::Unset),
        Err(Over::Division(id)) => Ok(Ending::Division(id)),
        Err(Over::Unfit) => Err(RunError::Unfit),
    }
}

// A run with all answers of a list that reads, from its start.
// store, events and left come down to here from run, each as it was lent, and are used here alone: a struct made in run would only be taken
// apart.
fn run_told(
    g: &Ground,
    store: &[u8],
    t0: Turn,
    events: &mut [u8],
    left: &mut [u8],
) -> Result<Run, RunError>
    requires opened { Opened g.now }
    requires begun { Begun g.now t0 }
    ensures { Engine g.now.s.now store.now g.now.list.now t0.more
        events.old left.old events.new left.new result }
{
    let mut cells = Cells::<NAMES>::new();
    engine_house::read_store(store, g.types, &mut cells).ok_or(RunError::Unfit)?;
    let first = Turn {
        tells: true,
        ..engine_steps::steps(g, &mut cells, &mut [], t0)
    };
    let mut again = cells;
    let t = engine_steps::steps(g, &mut cells, &mut [], first);
    let how = ending(t.spot)?;
    let names = g.types.len() as u64;
    let size = engine_house::put_store(&cells, names, &mut []);
    if events.len() < t.event || left.len() < size {
        return Err(RunError::Room(t.event, size));
    }
    engine_steps::steps(g, &mut again, events, first);
    engine_house::put_store(&cells, names, left);
    Ok(Run {
        events: t.event,
        store: size,
        steps: t0.more - t.more,
        ending: how,
    })
}

// A run of an accepted record that is laid open.
fn run_opened(
    g: &Ground,
    store: &[u8],
    limit: u64,
    events: &mut [u8],
    left: &mut [u8],
) -> Result<Run, RunError>
    requires { Opened g.now }
    ensures { Engine g.now.s.now store.now g.now.list.now limit
        events.old left.old events.new left.new result }
{
    let answers = engine_house::read_answers(g.list).ok_or(RunError::Unfit)?;
    let t = Turn {
        spot: engine_quiet::land(g, 0),
        more: limit,
        answer: engine_house::ITEMS,
        answers,
        event: 0,
        tells: false,
    };
    run_told(g, store, t, events, left)
}

// A run of an accepted record.
fn run_accepted(
    s: &[u8],
    store: &[u8],
    list: &[u8],
    limit: u64,
    events: &mut [u8],
    left: &mut [u8],
) -> Result<Run, RunError>
    requires { checked s.now ≡ Ok tt }
    ensures { Engine s.now store.now list.now limit
        events.old left.old events.new left.new result }
{
    let mut types = [0u8; NAMES];
    let head = read_layout::layout_of(s, &mut types, &mut []);
    let mut starts = [0u32; BLOCKS];
    read_layout::fill_blocks(s, head.width, &mut starts, head.blocks, head.end + 2);
    let g = Ground {
        s,
        w: head.width,
        types: &types[..usize::from(head.names)],
        starts: &starts[..head.blocks],
        list,
    };
    run_opened(&g, store, limit, events, left)
}

// Runs a record from a starting store with a list of answers, for at most so many steps: the events and the final store stand first in what
// was lent, with the bytes of each, the steps and how it ended; or check's refusal, or that store or answers do not read or fit, or that too
// little was lent, with the bytes needed, and no byte touched.
pub fn run(
    input: &[u8],
    store: &[u8],
    answers: &[u8],
    limit: u64,
    events: &mut [u8],
    left: &mut [u8],
) -> Result<Run, RunError>
    ensures { (result ≡ engine input.now store.now answers.now limit events.old left.old) ×
        ((events.new ≡ engine_events input.now store.now answers.now limit events.old left.old) ×
        (left.new ≡ engine_store input.now store.now answers.now limit events.old left.old)) }
{
    checker::check(input)?;
    run_accepted(input, store, answers, limit, events, left)
}
