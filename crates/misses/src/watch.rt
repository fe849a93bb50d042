// The events of a trace, played on the model with the deadline cells beside it.
ghost use Rattle.run.specs.Run.{calls_of};
ghost use Rattle.deadlines.specs.Miss.{deadlines_of};
ghost use Rattle.deadlines.specs.Words.{machine_misses};
ghost use Rattle.misses.specs.Noted.{Noted};
ghost use Rattle.misses.specs.Watched.{Watchable};

use crate::change::{TICK, active, change_by};
use crate::list::Misses;
use crate::row::DeadlineCells;
use config::Config;
use event_codec::read_event;
use model::Model;
use plan::Plan;
use step::step;

// Plays the trace and notes its misses. At a Tick the cells count first, then the machine does, and last the cells of
// bodies that ended go off and those of newly ready ones start.
pub fn watch(config: Config, plan: Plan, trace: &[u8]) -> Misses
    requires { Watchable config trace.now }
    ensures { Noted result (machine_misses config plan (deadlines_of config) (calls_of trace.now)) }
{
    let mut model = Model::fresh(&plan);
    let mut cells = DeadlineCells::fresh(
        active(model.registers),
        plan.rank,
        config.deadline,
        config.bodies as usize,
    );
    let mut misses = Misses::none();
    let mut ticks: u16 = 0;
    let mut at: usize = 0;
    // No range: each event says where the next begins.
    while let Ok(read) = read_event(trace, at) {
        let event = read.value;
        if event.code == TICK {
            ticks += 1;
            cells.note_matches(ticks, &mut misses);
        }
        let outcome = step(model, &config, &plan, event);
        cells = cells.moved(change_by(model, event, outcome, &plan.body));
        model = outcome.model;
        at = read.place;
    }
    misses
}
