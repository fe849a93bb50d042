// The drawn trace, event by event: measured first, then written where it is known to fit.
ghost use Rattle.std.specs.Prelude.{◌≡◌, ◌+◌, ◌≤◌, length};
ghost use Rattle.number.specs.Output.{written, laid};
ghost use Rattle.event.specs.Event.{event_bytes, Writable};
ghost use Rattle.event.specs.Trace.{max_trace};
ghost use Rattle.drawing.specs.Drawing.{draw_bytes};

use crate::events::Chances;
use event::Event;
use event_codec::write_event;

// How many bytes the trace takes.
pub fn measure(chances: &Chances, start: u32, count: u32) -> usize
    requires { count ≤ max_trace }
    ensures { result ≡ length (draw_bytes chances.now.weights chances.now.limits start count) }
{
    let mut value = start;
    let mut length: usize = 0;
    for i in 0..count {
        let drawn = chances.draw_event(value);
        length += event_length(drawn.event);
        value = drawn.value;
    }
    length
}

// How many bytes an event takes: what its writer needs that is lent none.
fn event_length(event: Event) -> usize
    requires { Writable event }
    ensures { result ≡ length (event_bytes event) }
{
    let mut none = [0u8; 0];
    match write_event(event, &mut none) {
        Ok(length) => length,
        Err(refused) => refused.place,
    }
}

// Writes the trace at the start of `out`, which has room for it. A walk of both passes over what is done with an event
// would carry the output as a state, and be no plainer.
pub fn write_trace(chances: &Chances, start: u32, count: u32, out: &mut [u8])
    requires { length (draw_bytes chances.now.weights chances.now.limits start count) ≤ length out.old }
    ensures { out.new
        ≡ written (draw_bytes chances.now.weights chances.now.limits start count) out.old }
{
    let mut value = start;
    let mut at: usize = 0;
    for i in 0..count {
        let drawn = chances.draw_event(value);
        at = put_event(drawn.event, at, out);
        value = drawn.value;
    }
}

// Writes an event at a place and returns the place after it.
fn put_event(event: Event, at: usize, out: &mut [u8]) -> usize
    requires { Writable event × (at + length (event_bytes event) ≤ length out.old) }
    ensures result { result ≡ at + length (event_bytes event) }
    ensures output { out.new ≡ laid at (event_bytes event) out.old }
{
    at + write_event(event, &mut out[at..]).unwrap()
}
