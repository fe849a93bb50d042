// The run of a trace on a configuration, which C calls.
#![tactic(auto)]

mod answer;
mod count;
mod output;
mod play;

ghost use Rattle.std.specs.Prelude.{◌≡◌, ◌≤◌, ◌<◌, ◌^◌, length, IfOk, IfErr};
ghost use Rattle.event.specs.Trace.{max_trace};
ghost use Rattle.run.specs.Run.{run_result, run_output};
ghost use Rattle.run.specs.Steps.{machine_output, last_model};
ghost use Rattle.model.specs.View.{model_of};
ghost use Rattle.kernel.specs.Ends.{as_result, as_run_result, model_left};

use answer::answer;
use config_codec::read_config;
use count::count_events;
use event::MAX_TRACE;
use model::Model;
use number::{Refusal, Refused};

// What suffices for the output of every run, so that none is refused for it: four bytes for each of 8,192 events and two
// for each of 32 bodies.
pub const OUTPUT_MAX: usize = 32832;

// How a run ends: the number of events, or a refusal with its place, and the model that the last event handed back.
#[derive(Clone, Copy)]
pub struct RunEnd {
    pub result: Result<usize, Refused>,
    pub model: Model,
}

// What a run that is not refused leaves.
#[derive(Clone, Copy)]
pub struct Played {
    pub events: usize,
    pub model: Model,
}

// Runs a trace on a configuration and writes the answers and the losses. The result is the number of events, or a
// refusal with its place; a refused run writes nothing.
#[unsafe(no_mangle)]
pub extern "C" fn osek_run(config: &[u8], trace: &[u8], out: &mut [u8]) -> u64
    ensures result { result ≡ run_result config.now trace.now (length out.old) }
    ensures output { out.new
        ≡ run_output config.now trace.now out.old }
    ensures steps { out.new
        ≡ machine_output config.now trace.now out.old }
{
    match run(config, trace, out).result {
        Ok(events) => events as u64,
        Err(refused) => refused.packed(),
    }
}

// The same, with the last model: the run makes the machine's steps, from the fresh start on, one for each event. A
// refused run plays no event, and hands over a model in which nobody is ready.
pub fn run(config: &[u8], trace: &[u8], out: &mut [u8]) -> RunEnd
    ensures result { as_result result.result
        ≡ run_result config.now trace.now (length out.old) }
    ensures output { out.new
        ≡ run_output config.now trace.now out.old }
    ensures steps { out.new
        ≡ machine_output config.now trace.now out.old }
    ensures model { result.model
        ≡ model_of (last_model config.now trace.now (length out.old)) }
    ensures few { IfOk result.result (λ events. events ≤ max_trace) }
    ensures place { IfErr result.result (λ refused. refused.place < 2 ^ 32) }
{
    match try_run(config, trace, out) {
        Ok(played) => RunEnd {
            result: Ok(played.events),
            model: played.model,
        },
        Err(refused) => RunEnd {
            result: Err(refused),
            model: Model::idle(),
        },
    }
}

// The same for callers that go on after an accepted run alone.
pub fn try_run(config: &[u8], trace: &[u8], out: &mut [u8]) -> Result<Played, Refused>
    ensures result { as_run_result result
        ≡ run_result config.now trace.now (length out.old) }
    ensures output { out.new
        ≡ run_output config.now trace.now out.old }
    ensures steps { out.new
        ≡ machine_output config.now trace.now out.old }
    ensures model { model_left result
        ≡ model_of (last_model config.now trace.now (length out.old)) }
    ensures few { IfOk result (λ played. played.events ≤ max_trace) }
    ensures place { IfErr result (λ refused. refused.place < 2 ^ 32) }
{
    let read = read_config(config)?;
    if MAX_TRACE < trace.len() {
        return Err(Refused {
            refusal: Refusal::TraceTooLong,
            place: 0,
        });
    }
    let events = count_events(trace)?;
    let need = 4 * events + 2 * read.value.bodies as usize;
    if out.len() < need {
        return Err(Refused {
            refusal: Refusal::NoRoom,
            place: need,
        });
    }
    let model = answer(read.value, trace, events, out);
    Ok(Played { events, model })
}
