// The missed deadlines of a trace: `osek_misses`, which C calls.
//
// Configuration and trace are refused as the run refuses them. Then the events are played on the machine's model, which
// goes by value from step to step, with a deadline cell for each body beside it: watch.rt has the loop, change.rt what an
// event changed, by the words before and after it, row.rt the cells, list.rt the misses and the list of the first 64.
// Their contracts cite the run on the machine with a row of cells (deadlines, `machine_misses`), that of `osek_misses`
// the definition over the list of events alone (`misses`): deadlines' law `played_misses` says that they are the same.
#![tactic(auto)]

mod change;
mod list;
mod row;
mod watch;

ghost use Rattle.std.specs.Prelude.{◌≡◌, ◌<◌, ◌^◌, length, IfErr};
ghost use Rattle.number.specs.Output.{written};
ghost use Rattle.plan.specs.Plan.{plan_of};
ghost use Rattle.run.specs.Run.{calls_of};
ghost use Rattle.kernel.specs.Ends.{as_result};
ghost use Rattle.deadlines.specs.Miss.{deadlines_of};
ghost use Rattle.deadlines.specs.Report.{first_misses, miss_bytes};
ghost use Rattle.deadlines.specs.Words.{machine_misses};
ghost use Rattle.deadlines.specs.Result.{count_of, misses_result, misses_output};
ghost use Rattle.misses.specs.Watched.{Watchable};

use config::Config;
use config_codec::read_config;
use kernel::{OUTPUT_MAX, try_run};
use number::Refused;
use planner::plan_of;
use watch::watch;

// Writes the first 64 misses to the list and gives the count of all, or a refusal with its place; a refused call writes
// nothing. The run says what is refused of configuration and trace.
#[unsafe(no_mangle)]
pub extern "C" fn osek_misses(config: &[u8], trace: &[u8], list: &mut [u8]) -> u64
    ensures result { result
        ≡ misses_result config.now trace.now (length list.old) }
    ensures output { list.new
        ≡ misses_output config.now trace.now list.old }
{
    match missed(config, trace, list) {
        Ok(count) => count as u64,
        Err(refused) => refused.packed(),
    }
}

fn missed(config: &[u8], trace: &[u8], list: &mut [u8]) -> Result<usize, Refused>
    ensures value { as_result result
        ≡ misses_result config.now trace.now (length list.old) }
    ensures output { list.new
        ≡ misses_output config.now trace.now list.old }
    ensures place { IfErr result (λ refused. refused.place < 2 ^ 63) }
{
    let mut out = [0u8; OUTPUT_MAX];
    try_run(config, trace, &mut out)?;
    let read = read_config(config)?;
    list_misses(read.value, trace, list)
}

// The same of a configuration and a trace that are accepted.
fn list_misses(config: Config, trace: &[u8], list: &mut [u8]) -> Result<usize, Refused>
    requires { Watchable config trace.now }
    ensures value { as_result result
        ≡ count_of (length list.old)
        (machine_misses config (plan_of config) (deadlines_of config) (calls_of trace.now)) }
    ensures list_after { list.new
        ≡ written (miss_bytes
        (first_misses (machine_misses config (plan_of config) (deadlines_of config) (calls_of trace.now))))
        list.old }
    ensures place { IfErr result (λ refused. refused.place < 2 ^ 63) }
{
    let misses = watch(config, plan_of(config), trace);
    misses.write(list)
}
