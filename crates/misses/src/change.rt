// What an event changed for the deadline cells: who was active before and after it, and who chained to itself.
ghost use Rattle.std.specs.Prelude.{◌≡◌};
ghost use Rattle.run.specs.Run.{call_of};
ghost use Rattle.model.specs.View.{status_number, view, view_outcome};
ghost use Rattle.deadlines.specs.Activation.{chains_to};
ghost use Rattle.misses.specs.Change.{active_in, chained_body, change_by};

use event::Event;
use model::{Model, Outcome, Registers, Status};
use word::union;

// The codes of a Chain and of a Tick; why codes are numbers says crate event.
const CHAIN: u8 = 3;

pub const TICK: u8 = 6;

#[derive(Clone, Copy)]
pub struct Change {
    // The ranks that were active before the event, and those that are after it, each as a word.
    pub before: u32,
    pub after: u32,
    // The body that ended and became ready at once, by an accepted Chain to itself.
    pub chained: Option<u8>,
    pub tick: bool,
}

// The ranks that are not suspended: a request of them waits, or they have begun.
pub fn active(registers: Registers) -> u32
    ensures { result ≡ active_in registers.request registers.started registers.aside }
{
    union(registers.request, union(registers.started, registers.aside))
}

// What the event changed that met `model` and handed `outcome` back; `body` has the bodies by rank.
pub fn change_by(model: Model, event: Event, outcome: Outcome, body: &[u8; 32]) -> Change
    ensures { result ≡ change_by body.now (view model) (call_of event) (view_outcome outcome) }
{
    let met = model.registers;
    let left = outcome.model;
    let runner = body.get(met.runner as usize).copied();
    Change {
        before: active(met),
        after: active(left.registers),
        chained: chained_body(runner, event, outcome.status),
        tick: event.code == TICK,
    }
}

// The runner, where the event is an accepted Chain to it.
fn chained_body(runner: Option<u8>, event: Event, status: Status) -> Option<u8>
    ensures { result ≡ chained_body runner (call_of event) (status_number status) }
{
    match runner {
        Some(body) if status == Status::Done && chains_to(body, event) => Some(body),
        _ => None,
    }
}

fn chains_to(body: u8, event: Event) -> bool
    ensures { result ≡ chains_to body (call_of event) }
{
    event.code == CHAIN && event.first == body as u32
}
