// Salvages a damaged recording: the events that can be read are kept, and the stretches between them are listed.
#![tactic(auto)]

mod walk;
mod write;

ghost use Rattle.std.specs.Prelude.{◌≡◌, length};
ghost use Rattle.salvage.specs.Salvage.{salvaged, as_salvaged, events_after, stretches_after, result_of};

use event::MAX_TRACE;
use number::{Refusal, Refused};
use walk::measure;
use write::write_both;

// How many bytes the kept events and the list of stretches take.
#[derive(Clone, Copy)]
pub struct Lengths {
    pub events: usize,
    pub stretches: usize,
}

// Writes the kept events of `trace` at the start of `events`, and at the start of `stretches` offset
// and length of each dropped stretch, as numbers; or nothing where it is refused. The place of NoRoom is the number of
// bytes that the output at fault needs.
pub fn salvage(trace: &[u8], events: &mut [u8], stretches: &mut [u8]) -> Result<Lengths, Refused>
    ensures result { as_salvaged result ≡ salvaged trace.now (length events.old)
        (length stretches.old) }
    ensures events { events.new ≡ events_after trace.now events.old
        stretches.old }
    ensures stretches { stretches.new ≡ stretches_after trace.now events.old
        stretches.old }
{
    if MAX_TRACE < trace.len() {
        return Err(Refused {
            refusal: Refusal::TraceTooLong,
            place: 0,
        });
    }
    let need = measure(trace);
    if events.len() < need.events {
        return Err(Refused {
            refusal: Refusal::NoRoom,
            place: need.events,
        });
    }
    if stretches.len() < need.stretches {
        return Err(Refused {
            refusal: Refusal::NoRoom,
            place: need.stretches,
        });
    }
    write_both(trace, events, stretches);
    Ok(need)
}

// The same for C: both lengths in one number, or the refusal with its place.
#[unsafe(no_mangle)]
pub extern "C" fn osek_salvage(trace: &[u8], events: &mut [u8], stretches: &mut [u8]) -> u64
    ensures result { result ≡ result_of (salvaged trace.now (length events.old)
        (length stretches.old)) }
    ensures events { events.new ≡ events_after trace.now events.old
        stretches.old }
    ensures stretches { stretches.new ≡ stretches_after trace.now events.old
        stretches.old }
{
    match salvage(trace, events, stretches) {
        Ok(lengths) => lengths.stretches as u64 * 65536 + lengths.events as u64,
        Err(refused) => refused.packed(),
    }
}
