// The verdict on a unit: whether the answers that it recorded are those of the run. Of the run it knows the contract.
#![tactic(auto)]

mod compare;

ghost use Rattle.std.specs.Prelude.{◌≡◌, List, ◌++◌, ℕ, ◌*◌, ◌≤◌, length, IfErr};
ghost use Rattle.scheduler.specs.Scheduler.{Seen};
ghost use Rattle.run.specs.Run.{answer_bytes};
ghost use Rattle.conformance.specs.Verdict.{record_verdict, verdict_result};
ghost use Rattle.verdict.specs.Answers.{as_verdict};

use compare::right_answers;
use kernel::{OUTPUT_MAX, osek_run};
use number::{Refusal, Refused};

// The least result of a run that is a refusal: a number of the C interface, as is PASS.
const REFUSED: u64 = 1 << 32;

const PASS: u64 = u64::MAX;

// What is said of a unit whose record is not refused.
#[derive(Clone, Copy, Debug, PartialEq, Eq)]
pub enum Verdict {
    Pass,
    // The first event whose answer differs or is missing.
    Fails(usize),
}

// Judges the answers that a unit recorded of a trace. The result is PASS, the index of the first event whose answer
// differs or is missing, or a refusal with its place.
#[unsafe(no_mangle)]
pub extern "C" fn osek_verdict(config: &[u8], trace: &[u8], recorded: &[u8]) -> u64
    ensures { result
        ≡ verdict_result config.now trace.now recorded.now }
{
    // As much as a run can need, so that none is refused with 30.
    let mut out = [0u8; OUTPUT_MAX];
    // What C gets, and not `run`: a second caller of `run` in the run's archive slows it (docs/PERFORMANCE.md).
    let result = osek_run(config, trace, &mut out);
    if REFUSED <= result {
        return result;
    }
    match judge(&out, result as usize, recorded) {
        Ok(Verdict::Pass) => PASS,
        Ok(Verdict::Fails(event)) => event as u64,
        Err(refused) => refused.packed(),
    }
}

// The verdict on a record of `events` events, whose answers stand at the front of `out`.
fn judge(out: &[u8], events: usize, recorded: &[u8]) -> Result<Verdict, Refused>
    requires { 4 * events ≤ length out.now }
    ensures verdict { (xs : List Seen) (zs : List ℕ) → out.now ≡ answer_bytes xs ++ zs
        → length xs ≡ events → as_verdict result ≡ record_verdict xs events recorded.now }
    ensures place { IfErr result (λ refused. refused.place ≡ 0) }
{
    if recorded.len() % 4 != 0 || 4 * events < recorded.len() {
        return Err(Refused {
            refusal: Refusal::BadRecord,
            place: 0,
        });
    }
    let right = right_answers(out, recorded);
    if right < events {
        Ok(Verdict::Fails(right))
    } else {
        Ok(Verdict::Pass)
    }
}
