// The second pass over a trace: its events are played, and their answers written. The arm of a code reads its
// arguments, so that a single jump depends on the code: the processor foresees few of those of a drawn trace.
ghost use Rattle.std.specs.Prelude.{◌≡◌, length};
ghost use Rattle.number.specs.Output.{laid};
ghost use Rattle.machine.specs.Machine.{machine_seen, machine_after};
ghost use Rattle.run.specs.Run.{answer_bytes, calls_of};
ghost use Rattle.model.specs.View.{view, model_of};
ghost use Rattle.kernel.specs.Passes.{Playable};

use crate::output::{put_answer, runner};
use config::Config;
use model::{Model, Outcome, Status};
use number_codec::{number_at, read_pair};
use plan::Plan;

// Each event meets the model that the one before it handed back; the last one's is the result. A `while`, since the arm
// of a code finds where the next event begins.
pub fn play<'a, 'b>(
    config: &'a Config,
    plan: &'a Plan,
    fresh: Model,
    trace: &'a [u8],
    out: &'b mut [u8],
) -> Model
    requires { Playable trace.now (length out.old) }
    ensures value { result ≡ model_of (machine_after config.now plan.now (view fresh) (calls_of trace.now)) }
    ensures out_after { out.new
        ≡ laid 0 (answer_bytes (machine_seen config.now plan.now (view fresh) (calls_of trace.now)))
        out.old }
{
    let mut o = Outcome {
        model: fresh,
        status: Status::Done,
        begun: false,
    };
    let mut at: usize = 0;
    let mut to: usize = 0;
    while at < trace.len() {
        let code = trace[at];
        let mut next = at + 1;
        match code {
            1 => {
                let task = number_at(trace, next);
                o = o.model.activate(plan, task.value);
                next = task.place;
            }
            2 => {
                o = o.model.finish(plan);
            }
            3 => {
                let task = number_at(trace, next);
                o = o.model.chain(plan, task.value);
                next = task.place;
            }
            4 => {
                let resource = number_at(trace, next);
                o = o.model.get(config, plan, resource.value);
                next = resource.place;
            }
            5 => {
                let resource = number_at(trace, next);
                o = o.model.release(config, plan, resource.value);
                next = resource.place;
            }
            6 => {
                o = o.model.tick(plan);
            }
            7 => {
                let isr = number_at(trace, next);
                o = o.model.line(config, plan, isr.value);
                next = isr.place;
            }
            8 => {
                let arguments = read_pair(trace, next);
                o = o
                    .model
                    .start(config, plan, arguments.first, arguments.second);
                next = arguments.place;
            }
            9 => {
                let table = number_at(trace, next);
                o = o.model.stop(config, plan, table.value);
                next = table.place;
            }
            10 => {
                let mask = number_at(trace, next);
                o = o.model.wait(plan, mask.value);
                next = mask.place;
            }
            11 => {
                let arguments = read_pair(trace, next);
                o = o.model.set_event(plan, arguments.first, arguments.second);
                next = arguments.place;
            }
            12 => {
                let mask = number_at(trace, next);
                o = o.model.clear(plan, mask.value);
                next = mask.place;
            }
            0 | 13..=255 => {
                o.status = Status::Done;
                o.begun = false;
            }
        }
        // Here the compiler still knows the arm's status; further down it would ask which one it is.
        let status = o.status.number();
        put_answer(
            status,
            runner(&plan.body, o.model.registers.runner),
            o.model.registers.level,
            o.begun,
            to,
            out,
        );
        at = next;
        to += 4;
    }
    o.model
}
