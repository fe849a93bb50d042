// The bench program: runs `config.bin` and `trace.bin` of the current folder, and prints the answers
// or the refusal. Everything goes to standard output.
#![tactic(auto)]

ghost use Rattle.std.specs.Prelude.{◌≤◌, ◌<◌, length, IfOk};

use config_codec::read_config;
use event::MAX_TRACE;
use event_codec::read_event;
use kernel::osek_run;
use std::io::Read;
use std::rt::Files;
use std::{fs, io};

// The first or the second file can't be read; numbers that the program prints.
const NO_CONFIG: u64 = 40;

const NO_TRACE: u64 = 41;

// The run's result is its refusal times this, plus the place; or the number of events.
const REFUSAL: u64 = 0x1_0000_0000;

// In place of a runner: nobody runs. The output's bytes have it.
const IDLE: u8 = 255;

fn main(rt: HostRuntime) -> io::Result<()> {
    // Each buffer has a byte more than the run takes, so that a longer file is seen to be too long.
    let mut config = [0u8; 4097];
    let mut trace = [0u8; 8193];
    let mut out = [0u8; 32832];
    let config_len = load(&rt, "config.bin", &mut config);
    let trace_len = load(&rt, "trace.bin", &mut trace);
    let Ok(config_len) = config_len else {
        return print_refused(&rt, NO_CONFIG, 0);
    };
    let Ok(trace_len) = trace_len else {
        return print_refused(&rt, NO_TRACE, 0);
    };
    report(&rt, &config[..config_len], &trace[..trace_len], &mut out)
}

// Runs the trace, and prints its answers or the refusal.
fn report(rt: &impl Print, config: &[u8], trace: &[u8], out: &mut [u8]) -> io::Result<()> {
    // The function that C calls, and not `run`: what is printed is then what C gets.
    let result = osek_run(config, trace, out);
    if REFUSAL <= result {
        return print_refused(rt, result / REFUSAL, result % REFUSAL);
    }
    // No trace has more events than bytes.
    let events = MAX_TRACE.min(result as usize);
    print_events(rt, trace, out, events)?;
    print_losses(rt, config, out, events)
}

// Reads a file into the buffer, until it ends or the buffer is full, and gives how many bytes it has there. A read that
// fails makes the whole file unreadable, wherever it stands.
fn load(rt: &impl Files, path: &str, buffer: &mut [u8]) -> io::Result<usize>
    ensures { IfOk result (λ len. len ≤ length buffer.new) }
{
    let mut file = fs::open(rt, path)?;
    read_whole(&mut file, buffer)
}

fn read_whole(file: &mut impl Read, buffer: &mut [u8]) -> io::Result<usize>
    ensures { IfOk result (λ len. len ≤ length buffer.new) }
{
    let mut len = 0;
    // A `while`, since a read gives as many bytes as it likes.
    while len < buffer.len() {
        let more = file.read(&mut buffer[len..])?;
        if more == 0 {
            break;
        }
        len += more;
    }
    Ok(len)
}

fn print_refused(rt: &impl Print, refusal: u64, place: u64) -> io::Result<()> {
    println!(rt; "refused {refusal} {place}")
}

// A line for each event.
fn print_events(rt: &impl Print, trace: &[u8], out: &[u8], events: usize) -> io::Result<()>
    requires { events ≤ 8192 }
{
    println!(rt; "step event status runner level begun")?;
    let mut at = 0;
    for i in 0..events {
        let Ok(read) = read_event(trace, at) else {
            break;
        };
        print!(rt; "{i} {}", read.value.code)?;
        print_answer(rt, out, 4 * i)?;
        at = read.place;
    }
    Ok(())
}

// The four bytes of an answer: status, runner, level and begun mark.
fn print_answer(rt: &impl Print, out: &[u8], at: usize) -> io::Result<()>
    requires { at < 32768 }
{
    print!(rt; " {}", byte(out, at))?;
    print_runner(rt, byte(out, at + 1))?;
    println!(rt; " {} {}", byte(out, at + 2), byte(out, at + 3))
}

fn print_runner(rt: &impl Print, runner: u8) -> io::Result<()> {
    if runner == IDLE {
        print!(rt; " -")
    } else {
        print!(rt; " {runner}")
    }
}

// A line for each body that lost an activation.
fn print_losses(rt: &impl Print, config: &[u8], out: &[u8], events: usize) -> io::Result<()>
    requires { events ≤ 8192 }
{
    for b in 0..body_count(config) {
        print_loss(rt, out, 4 * events + 2 * b, b)?;
    }
    Ok(())
}

fn body_count(config: &[u8]) -> usize
    ensures { result < 256 }
{
    read_config(config).map_or(0, |read| usize::from(read.value.bodies))
}

fn print_loss(rt: &impl Print, out: &[u8], at: usize, body: usize) -> io::Result<()>
    requires { at < 65536 }
{
    let lost = u16::from_le_bytes([byte(out, at), byte(out, at + 1)]);
    if 0 < lost {
        println!(rt; "lost {body} {lost}")?;
    }
    Ok(())
}

// A byte of the output, which the run made long enough.
fn byte(out: &[u8], i: usize) -> u8 {
    out.get(i).copied().unwrap_or(0)
}
