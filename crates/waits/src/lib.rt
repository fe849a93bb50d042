// How long a body waits to begin: how many bodies end before it does, counted by bits of the last model's words.
#![tactic(auto)]

ghost use Rattle.std.specs.Prelude.{◌≡◌, ◌≤◌, ◌<◌, ◌^◌, IfErr};
ghost use Rattle.config.specs.Value.{max_bodies};
ghost use Rattle.config.specs.Accepted.{Accepted, Shaped};
ghost use Rattle.word.specs.Word.{ranks};
ghost use Rattle.kernel.specs.Ends.{as_result};
ghost use Rattle.waiting.specs.Conditions.{beyond_basic};
ghost use Rattle.waiting.specs.Result.{wait_result};
ghost use Rattle.waiting.specs.Words.{jobs_ahead_in, wait_at, wait_by};

use config::{Config, EXTENDED, TIME_TRIGGERED};
use config_codec::read_config;
use kernel::{OUTPUT_MAX, try_run};
use number::{Refusal, Refused};
use planner::plan_of;

// How many Finish events are accepted after the trace until the body begins, if only such events follow; or a refusal
// with its place.
#[unsafe(no_mangle)]
pub extern "C" fn osek_wait(config: &[u8], trace: &[u8], body: u32) -> u64
    ensures { result ≡ wait_result config.now trace.now body }
{
    match wait(config, trace, body) {
        Ok(jobs) => u64::from(jobs),
        Err(refused) => refused.packed(),
    }
}

fn wait(config: &[u8], trace: &[u8], body: u32) -> Result<u32, Refused>
    ensures value { as_result result ≡ wait_result config.now trace.now body }
    ensures place { IfErr result (λ refused. refused.place < 2 ^ 63) }
{
    let mut out = [0u8; OUTPUT_MAX];
    let played = try_run(config, trace, &mut out)?;
    let read = read_config(config)?;
    let last = played.model.registers;
    wait_by(read.value, last.request, last.started, last.held, body)
}

// The answer by the words of the last model: who waits to begin and who is started, by rank, and what is held. They are
// the parameters of the definition `wait_by`.
fn wait_by(
    config: Config,
    request: u32,
    started: u32,
    resources: u32,
    body: u32,
) -> Result<u32, Refused>
    requires accepted { Accepted config }
    requires shaped { Shaped config }
    ensures value { as_result result ≡ wait_by config request started resources body }
    ensures place { IfErr result (λ refused. refused.place ≡ 0) }
{
    if beyond_basic(&config) {
        return Err(refused(Refusal::OtherKinds));
    }
    if u32::from(config.bodies) <= body {
        return Err(refused(Refusal::NoSuchBody));
    }
    let plan = plan_of(config);
    let rank = plan.rank[body as usize];
    wait_at(request, started, resources, u32::from(rank))
}

// The same of the body with this rank.
fn wait_at(request: u32, started: u32, resources: u32, rank: u32) -> Result<u32, Refused>
    requires { rank < ranks }
    ensures value { as_result result ≡ wait_at request started resources rank }
    ensures place { IfErr result (λ refused. refused.place ≡ 0) }
{
    if !word::has(request, rank) {
        return Err(refused(Refusal::NotWaiting));
    }
    if resources != 0 {
        return Err(refused(Refusal::ResourceInUse));
    }
    Ok(jobs_ahead(request, started, rank))
}

// A refusal that no byte decides.
fn refused(refusal: Refusal) -> Refused
    ensures { result ≡ record { refusal = refusal; place = 0 } }
{
    Refused { refusal, place: 0 }
}

// Whether one of the bodies is an extended or a time-triggered task.
fn beyond_basic(config: &Config) -> bool
    requires { config.now.bodies ≤ max_bodies }
    ensures { result ≡ beyond_basic config.now }
{
    let bodies = usize::from(config.bodies);
    config.kind[..bodies]
        .iter()
        .any(|&kind| kind == EXTENDED || kind == TIME_TRIGGERED)
}

// The requests above the rank, and the started ones from it on.
fn jobs_ahead(request: u32, started: u32, rank: u32) -> u32
    requires { rank < ranks }
    ensures { result ≡ jobs_ahead_in request started rank }
{
    (request >> rank >> 1).count_ones() + (started >> rank).count_ones()
}
