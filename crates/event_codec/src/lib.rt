// The events of a trace, read and written: a code, then its arguments, each a number of the format.
#![tactic(auto)]

ghost use Rattle.std.specs.Prelude.{◌≡◌, true, cond, ◌&&◌, ◌∷◌, ◌++◌, ◌+◌, ◌/◌, ◌%◌, ◌<◌, ◌≤◌, ltb, length, MatchResult, SomeIff, IfSome, Ok};
ghost use Rattle.number.specs.Refusal.{none, malformed};
ghost use Rattle.number.specs.Number.{accepted, read_number, number_bytes};
ghost use Rattle.number.specs.Output.{writing, written};
ghost use Rattle.number.specs.Answer.{code, as_written};
ghost use Rattle.event.specs.Refusal.{in_trace};
ghost use Rattle.event.specs.Event.{known, arguments, event, refused, unreadable, read_event, as_event_read, event_end, as_event_end, write_event, event_written};

use event::Event;
use number::{Reading, Refusal, Refused};
use number_codec::{number_length, read_number, write_number};

// How many bytes are read as one number. An event whose numbers have one byte each has three at most.
const WORD: usize = 4;

// The bytes of such an event, by its code, two bits each; 0 where no event has the code.
// One word and no table: the shape of which docs/PERFORMANCE.md tells (`event_end`).
const SHORT_LENGTHS: u64 = 48994968;

// The writer's refusal of an argument that the event lacks.
const STRAY: Refused = Refused {
    refusal: Refusal::StrayArgument,
    place: 0,
};

// The event at a place of `trace`, read number by number.
pub fn read_event(trace: &[u8], at: usize) -> Result<Reading<Event>, Refused>
    ensures { as_event_read result ≡ read_event trace.now at }
{
    let head = trace_number(trace, at)?;
    let code = head.value;
    match arguments(code) {
        None => Err(Refused {
            refusal: Refusal::UnknownEvent,
            place: at,
        }),
        Some(0) => Ok(reading(code, 0, 0, head.place)),
        Some(1) => {
            let first = trace_number(trace, head.place)?;
            Ok(reading(code, first.value, 0, first.place))
        }
        Some(_) => {
            let first = trace_number(trace, head.place)?;
            let second = trace_number(trace, first.place)?;
            Ok(reading(code, first.value, second.value, second.place))
        }
    }
}

// A number of the trace: where it can't be read, the refusal is the trace's.
// A match and no `map_err(in_trace)`: that was tried, and the proof that it hands on what `in_trace` says did not close.
fn trace_number(trace: &[u8], at: usize) -> Result<Reading<u32>, Refused>
    ensures { MatchResult result (λ r. accepted r.value r.place ≡ read_number trace.now at)
        (λ e. ((read_number trace.now at).refusal ≡ none → ⊥)
        × (refused (code e.refusal) e.place ≡ unreadable (read_number trace.now at))) }
{
    match read_number(trace, at) {
        Ok(number) => Ok(number),
        Err(refused) => Err(in_trace(refused)),
    }
}

// A number's refusal, as the trace has it.
fn in_trace(refused: Refused) -> Refused
    ensures refusal { code refused.refusal ≤ malformed → code result.refusal ≡ in_trace (code refused.refusal) }
    ensures place { result.place ≡ refused.place }
{
    let refusal = match refused.refusal {
        Refusal::Cut => Refusal::TraceCut,
        Refusal::Malformed => Refusal::TraceMalformed,
        other => other,
    };
    Refused {
        refusal,
        place: refused.place,
    }
}

// An event of a known code, and the place after it.
fn reading(code: u32, first: u32, second: u32, place: usize) -> Reading<Event>
    requires { code < 256 }
    ensures value { result.value ≡ event code first second }
    ensures place { result.place ≡ place }
{
    Reading {
        value: Event {
            code: code as u8,
            first,
            second,
        },
        place,
    }
}

// Where the event at a place of `trace` ends, or why it is refused and where: as `read_event` says it, without the
// event. Most numbers of a trace have one byte, so these come first.
pub fn event_end(trace: &[u8], at: usize) -> Result<usize, Refused>
    ensures { as_event_end result ≡ event_end trace.now at }
{
    match short_end(trace, at) {
        Some(end) => Ok(end),
        None => Ok(read_event(trace, at)?.place),
    }
}

// Where an event ends that is accepted and whose numbers have one byte each, if four bytes are left. Its four bytes are
// one load, and its length is computed, because a branch on the code is one that the processor does not foresee.
fn short_end(trace: &[u8], at: usize) -> Option<usize>
    ensures { IfSome result (λ end. as_event_end (Ok end) ≡ event_end trace.now at) }
{
    let word = u32::from_le_bytes(*trace.get(at..)?.first_chunk::<WORD>()?);
    if !is_short(word) {
        return None;
    }
    match short_length(word % 256) {
        0 => None,
        length => Some(at + length),
    }
}

// Whether the lowest byte is small enough for a code, and the two after it are numbers of one byte: `&` and not `&&`, for
// one test without branches.
fn is_short(word: u32) -> bool
    ensures { result ≡ (ltb (word % 256) 32 && ltb (word / 256 % 256) 128) && ltb (word / 65536 % 256) 128 }
{
    (word % 256 < 32) & (word / 256 % 256 < 128) & (word / 65536 % 256 < 128)
}

// How many bytes an event of this code has, if its numbers have one byte each; 0, without a branch, if it is unknown.
fn short_length(code: u32) -> usize
    requires { code < 32 }
    ensures { result ≡ cond (known code) (1 + arguments code) 0 }
{
    ((SHORT_LENGTHS >> 2 * code) % 4) as usize
}

// How many arguments follow the code, which may be that of no event.
// Twelve arms and a range: document 01 names this form (docs/DECISIONS.md).
#[tactic(auto, unfolding(event::specs::Event::known, event::specs::Event::arguments))]
fn arguments(code: u32) -> Option<u8>
    ensures { SomeIff result (known code ≡ true) (arguments code) }
{
    match code {
        1 => Some(1), // Activate
        2 => Some(0), // Finish
        3 => Some(1), // Chain
        4 => Some(1), // Get
        5 => Some(1), // Release
        6 => Some(0), // Tick
        7 => Some(1), // Line
        8 => Some(2), // Start
        9 => Some(1), // Stop
        10 => Some(1), // Wait
        11 => Some(2), // Set
        12 => Some(1), // Clear
        0 | 13..=4294967295 => None,
    }
}

// Writes the event at the start of `out`, or nothing where it is refused; gives its length.
// Twelve arms and a range: document 01 names this form (docs/DECISIONS.md).
#[tactic(auto, unfolding(event::specs::Event::known, event::specs::Event::arguments))]
pub fn write_event(event: Event, out: &mut [u8]) -> Result<usize, Refused>
    ensures result { as_written result ≡ write_event event (length out.old) }
    ensures output { out.new ≡ event_written event out.old }
{
    match event.code {
        1 => write_one(event, out), // Activate
        2 => write_none(event, out), // Finish
        3 => write_one(event, out), // Chain
        4 => write_one(event, out), // Get
        5 => write_one(event, out), // Release
        6 => write_none(event, out), // Tick
        7 => write_one(event, out), // Line
        8 => write_two(event, out), // Start
        9 => write_one(event, out), // Stop
        10 => write_one(event, out), // Wait
        11 => write_two(event, out), // Set
        12 => write_one(event, out), // Clear
        0 | 13..=255 => Err(Refused {
            refusal: Refusal::UnknownEvent,
            place: 0,
        }),
    }
}

// Writes an event without arguments. Each arm above knows its code to be known, and no code before the `match` does.
fn write_none(event: Event, out: &mut [u8]) -> Result<usize, Refused>
    requires { (known event.code ≡ true) × (arguments event.code ≡ 0) }
    ensures result { as_written result ≡ write_event event (length out.old) }
    ensures output { out.new ≡ event_written event out.old }
{
    if event.first != 0 || event.second != 0 {
        return Err(STRAY);
    }
    write_number(u32::from(event.code), out)
}

// Writes an event with one argument.
fn write_one(event: Event, out: &mut [u8]) -> Result<usize, Refused>
    requires { (known event.code ≡ true) × (arguments event.code ≡ 1) }
    ensures result { as_written result ≡ write_event event (length out.old) }
    ensures output { out.new ≡ event_written event out.old }
{
    if event.second != 0 {
        return Err(STRAY);
    }
    write_pair(event.code, event.first, out)
}

// Writes an event with two arguments.
fn write_two(event: Event, out: &mut [u8]) -> Result<usize, Refused>
    requires { (known event.code ≡ true) × (arguments event.code ≡ 2) }
    ensures result { as_written result ≡ write_event event (length out.old) }
    ensures output { out.new ≡ event_written event out.old }
{
    write_triple(event.code, event.first, event.second, out)
}

// Writes a byte and two numbers after it, or nothing where they do not fit.
fn write_triple(code: u8, first: u32, second: u32, out: &mut [u8]) -> Result<usize, Refused>
    ensures result { as_written result
        ≡ writing (code ∷ (number_bytes first ++ number_bytes second)) (length out.old) }
    ensures output { out.new
        ≡ written (code ∷ (number_bytes first ++ number_bytes second)) out.old }
{
    let at = 1 + number_length(first);
    let end = at + number_length(second);
    if out.len() < end {
        return Err(Refused {
            refusal: Refusal::NoRoom,
            place: end,
        });
    }
    write_pair(code, first, out)?;
    write_number(second, &mut out[at..])?;
    Ok(end)
}

// Writes a byte and a number after it, or nothing where they do not fit.
fn write_pair(code: u8, first: u32, out: &mut [u8]) -> Result<usize, Refused>
    ensures result { as_written result ≡ writing (code ∷ number_bytes first) (length out.old) }
    ensures output { out.new ≡ written (code ∷ number_bytes first) out.old }
{
    let n = 1 + number_length(first);
    if out.len() < n {
        return Err(Refused {
            refusal: Refusal::NoRoom,
            place: n,
        });
    }
    out[0] = code;
    write_number(first, &mut out[1..])?;
    Ok(n)
}
