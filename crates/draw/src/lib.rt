// Draws a trace: from a start value, by twelve weights and four limits, as many events as asked.
#![tactic(auto)]

mod events;
mod generator;
mod trace;
mod weights;

ghost use Rattle.std.specs.Prelude.{◌≡◌, length};
ghost use Rattle.number.specs.Answer.{as_written};
ghost use Rattle.drawing.specs.Drawing.{draw_bytes};
ghost use Rattle.drawing.specs.Answer.{writing_trace, draw_answer, filled, draw_output, draw_result};

use event::MAX_TRACE;
use events::Chances;
use number::{Refusal, Refused};
use trace::{measure, write_trace};
use weights::total;

// Writes `count` events, drawn from `start` on, at the start of `out`, or nothing where it is refused. The weights stand
// in the order of the event codes; the limits are those of bodies, resources, tables and delays.
pub fn draw(
    start: u32,
    weights: &[u16; 12],
    limits: &[u16; 4],
    count: u32,
    out: &mut [u8],
) -> Result<usize, Refused>
    ensures result { as_written result
        ≡ draw_answer start weights.now limits.now count (length out.old) }
    ensures output { out.new
        ≡ draw_output start weights.now limits.now count out.old }
{
    if start == 0 {
        return Err(Refused {
            refusal: Refusal::ZeroStart,
            place: 0,
        });
    }
    let sum = total(weights);
    if sum == 0 || limits.contains(&0) {
        return Err(Refused {
            refusal: Refusal::NothingToDraw,
            place: 0,
        });
    }
    let chances = Chances {
        weights: *weights,
        limits: *limits,
        sum,
    };
    fill(&chances, start, count, out)
}

// The same for C: the length of the trace, or the refusal with its place.
#[unsafe(no_mangle)]
pub extern "C" fn osek_draw(
    start: u32,
    weights: &[u16; 12],
    limits: &[u16; 4],
    count: u32,
    out: &mut [u8],
) -> u64
    ensures result { result
        ≡ draw_result start weights.now limits.now count (length out.old) }
    ensures output { out.new
        ≡ draw_output start weights.now limits.now count out.old }
{
    match draw(start, weights, limits, count, out) {
        Ok(length) => length as u64,
        Err(refused) => refused.packed(),
    }
}

// Measures the trace, and writes it where it is short enough and fits. Every event has a byte, so that too many need not
// be drawn.
fn fill(chances: &Chances, start: u32, count: u32, out: &mut [u8]) -> Result<usize, Refused>
    ensures result { as_written result ≡ writing_trace
        (draw_bytes chances.now.weights chances.now.limits start count) (length out.old) }
    ensures output { out.new ≡ filled (as_written result)
        (draw_bytes chances.now.weights chances.now.limits start count) out.old }
{
    const TOO_LONG: Refused = Refused {
        refusal: Refusal::TraceTooLong,
        place: 0,
    };
    if MAX_TRACE < count as usize {
        return Err(TOO_LONG);
    }
    let need = measure(chances, start, count);
    if MAX_TRACE < need {
        return Err(TOO_LONG);
    }
    if out.len() < need {
        return Err(Refused {
            refusal: Refusal::NoRoom,
            place: need,
        });
    }
    write_trace(chances, start, count, out);
    Ok(need)
}
