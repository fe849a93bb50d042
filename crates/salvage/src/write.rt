// Both outputs, written where they are known to fit.
ghost use Rattle.std.specs.Prelude.{◌≡◌, [], ◌+◌, ◌≤◌, length};
ghost use Rattle.number.specs.Number.{number_bytes};
ghost use Rattle.number.specs.Output.{written, laid};
ghost use Rattle.event.specs.Trace.{max_trace};
ghost use Rattle.recording.specs.Fate.{kept_bytes};
ghost use Rattle.recording.specs.Stretch.{closed, stretch_bytes, list_bytes};
ghost use Rattle.salvage.specs.Salvage.{Fitting};

use crate::walk::belonging;
use number_codec::write_number;

// Writes the kept bytes and the list of stretches. `kept` and `listed` bytes are written so far, and
// `gap` bytes before `at` are dropped and not yet listed.
// A walk of this pass and of `measure` over what is done with a byte would carry both outputs as a state, and be no
// plainer.
pub fn write_both(trace: &[u8], events: &mut [u8], stretches: &mut [u8])
    requires { Fitting trace.now (length events.old) (length stretches.old) }
    ensures events { events.new ≡ written (kept_bytes trace.now) events.old }
    ensures stretches { stretches.new ≡ written (list_bytes trace.now)
        stretches.old }
{
    let mut left: usize = 0;
    let mut gap: usize = 0;
    let mut kept: usize = 0;
    let mut listed: usize = 0;
    for at in 0..trace.len() {
        let here = belonging(trace, at, left);
        if here == 0 {
            gap += 1;
            continue;
        }
        events[kept] = trace[at];
        kept += 1;
        listed = write_stretch(at - gap, gap, listed, stretches);
        gap = 0;
        left = here - 1;
    }
    write_stretch(trace.len() - gap, gap, listed, stretches);
}

// Writes a stretch at a place of the list and returns the place after it; one without bytes is none.
fn write_stretch(offset: usize, size: usize, at: usize, list: &mut [u8]) -> usize
    requires { (offset + size ≤ max_trace)
        × (at + length (stretch_bytes (closed offset size [])) ≤ length list.old) }
    ensures result { result ≡ at + length (stretch_bytes (closed offset size [])) }
    ensures output { list.new ≡ laid at (stretch_bytes (closed offset size [])) list.old }
{
    if size == 0 {
        return at;
    }
    let next = put_number(offset as u32, at, list);
    put_number(size as u32, next, list)
}

// Writes a number at a place of the list and returns the place after it.
fn put_number(value: u32, at: usize, list: &mut [u8]) -> usize
    requires { at + length (number_bytes value) ≤ length list.old }
    ensures result { result ≡ at + length (number_bytes value) }
    ensures output { list.new ≡ laid at (number_bytes value) list.old }
{
    at + write_number(value, &mut list[at..]).unwrap()
}
