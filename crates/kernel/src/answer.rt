// The answers to a trace that is readable.
ghost use Rattle.std.specs.Prelude.{◌≡◌, length};
ghost use Rattle.number.specs.Output.{written};
ghost use Rattle.plan.specs.Plan.{plan_of};
ghost use Rattle.machine.specs.Machine.{fresh_model, machine_after};
ghost use Rattle.model.specs.View.{model_of};
ghost use Rattle.run.specs.Run.{calls_of};
ghost use Rattle.run.specs.Steps.{machine_answers};
ghost use Rattle.kernel.specs.Passes.{Runnable};

use crate::output::put_losses;
use crate::play::play;
use config::Config;
use model::Model;
use planner::plan_of;

// Writes the answers of all events, and then the losses; gives the last model.
pub fn answer<'a, 'b>(config: Config, trace: &'a [u8], events: usize, out: &'b mut [u8]) -> Model
    requires { Runnable config trace.now events (length out.old) }
    ensures out_after { out.new
        ≡ written (machine_answers config (plan_of config) (calls_of trace.now)) out.old }
    ensures value { result
        ≡ model_of (machine_after config (plan_of config) (fresh_model (plan_of config)) (calls_of trace.now)) }
{
    let plan = plan_of(config);
    let fresh = Model::fresh(&plan);
    let last = play(&config, &plan, fresh, trace, out);
    put_losses(
        &last.losses,
        &plan.rank,
        config.bodies as usize,
        4 * events,
        out,
    );
    last
}
