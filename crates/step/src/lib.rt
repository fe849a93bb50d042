// One event of a trace on the machine's model: the next model with its answer. The run reads the arguments in the arm of
// a code and does not come here; a call that looks at the model between events does.
#![tactic(auto)]

ghost use Rattle.std.specs.Prelude.{◌≡◌};
ghost use Rattle.machine.specs.Machine.{machine_step};
ghost use Rattle.run.specs.Run.{call_of};
ghost use Rattle.model.specs.View.{view, view_outcome};

use config::Config;
use event::Event;
use model::{Model, Outcome};
use plan::Plan;

// A match over the codes is a named form (docs/DECISIONS.md). They are those of an event that was read; the last arm is
// Clear's.
pub fn step(model: Model, config: &Config, plan: &Plan, event: Event) -> Outcome
    ensures { view_outcome result
        ≡ machine_step config.now plan.now (view model) (call_of event) }
{
    match event.code {
        1 => model.activate(plan, event.first),
        2 => model.finish(plan),
        3 => model.chain(plan, event.first),
        4 => model.get(config, plan, event.first),
        5 => model.release(config, plan, event.first),
        6 => model.tick(plan),
        7 => model.line(config, plan, event.first),
        8 => model.start(config, plan, event.first, event.second),
        9 => model.stop(config, plan, event.first),
        10 => model.wait(plan, event.first),
        11 => model.set_event(plan, event.first, event.second),
        _ => model.clear(plan, event.first),
    }
}
