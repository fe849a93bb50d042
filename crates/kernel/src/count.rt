// The first pass over a trace: it is read to its end or to its first refusal, and its events are counted.
ghost use Rattle.std.specs.Prelude.{◌≡◌, true};
ghost use Rattle.event.specs.Trace.{read_trace};
ghost use Rattle.kernel.specs.Passes.{IsCount, bare, Bare};

use event_codec::event_end;
use number::Refused;

// How many events without arguments are passed at once.
const GROUP: usize = 32;

// Where none of the events of a group has an argument, as in a stretch of ticks, the group is passed at once. It is
// looked for only after each group of events, so that a trace without such stretches pays little for the look. A `while`,
// since each turn finds how far it goes.
pub fn count_events(trace: &[u8]) -> Result<usize, Refused>
    ensures { IsCount result (read_trace trace.now) }
{
    let mut at: usize = 0;
    let mut events: usize = 0;
    while at < trace.len() {
        if events % GROUP == 0 && bare_group(trace, at) {
            at += GROUP;
            events += GROUP;
        } else {
            at = event_end(trace, at)?;
            events += 1;
        }
    }
    Ok(events)
}

// Whether a group of bytes from `at` on are codes of events without arguments. The loop goes on after one that is not:
// without a second way out it is a few vector instructions.
fn bare_group(trace: &[u8], at: usize) -> bool
    ensures { result ≡ true → Bare trace.now at 32 }
{
    if trace.len() <= at || trace.len() - at < GROUP {
        return false;
    }
    let mut all = true;
    for &code in &trace[at..at + GROUP] {
        all = is_bare(code) & all;
    }
    all
}

// Whether an event of this code has no arguments: Finish and Tick.
fn is_bare(code: u8) -> bool
    ensures { result ≡ bare code }
{
    (code == 2) | (code == 6)
}
