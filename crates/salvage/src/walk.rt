// The walk over a recording, byte by byte: which bytes belong to an event, and how many bytes both outputs take.
ghost use Rattle.std.specs.Prelude.{◌≡◌, [], ◌+◌, ◌≤◌, length, drop};
ghost use Rattle.event.specs.Trace.{max_trace};
ghost use Rattle.recording.specs.Fate.{belonging};
ghost use Rattle.recording.specs.Stretch.{closed, stretch_bytes};
ghost use Rattle.salvage.specs.Salvage.{lengths};

use crate::Lengths;
use event_codec::read_event;
use number_codec::number_length;

// How many bytes from `at` on belong to an event: the `left` ones of an event that began before, or
// those of one that begins here; 0 where the byte at `at` is to be dropped, as the definition `belonging` has it.
pub fn belonging(trace: &[u8], at: usize, left: usize) -> usize
    ensures { result ≡ belonging left (drop at trace.now) }
{
    if left != 0 {
        return left;
    }
    match read_event(trace, at) {
        Ok(event) => event.place - at,
        Err(_) => 0,
    }
}

// How many bytes a stretch takes in the list; none where it has no byte.
pub fn stretch_length(offset: usize, size: usize) -> usize
    requires { offset + size ≤ max_trace }
    ensures { result ≡ length (stretch_bytes (closed offset size [])) }
{
    if size == 0 {
        return 0;
    }
    number_length(offset as u32) + number_length(size as u32)
}

// How many bytes both outputs take. `gap` bytes before `at` are dropped and not yet listed.
pub fn measure(trace: &[u8]) -> Lengths
    requires { length trace.now ≤ max_trace }
    ensures { result ≡ lengths trace.now }
{
    let mut left: usize = 0;
    let mut gap: usize = 0;
    let mut events: usize = 0;
    let mut stretches: usize = 0;
    for at in 0..trace.len() {
        let here = belonging(trace, at, left);
        if here == 0 {
            gap += 1;
            continue;
        }
        events += 1;
        stretches += stretch_length(at - gap, gap);
        gap = 0;
        left = here - 1;
    }
    Lengths {
        events,
        stretches: stretches + stretch_length(trace.len() - gap, gap),
    }
}
