// Events read and written, and printed: document 01's listing trace, Wait, Set and Clear, and a case
// for each refusal and place. The file `stdout` is worked out by hand from documents 01 and 02 and
// not from this program.
#![tactic(auto)]

use event::Event;
use event_codec::{read_event, write_event};
use number::{Reading, Refused};
use std::io;

fn main(rt: HostRuntime) -> io::Result<()> {
    read_all(
        &rt,
        b"\x08\x00\x01\x04\x00\x06\x07\x02\x03\x01\x02\x02\x05\x00\x06\x06\x02\x02\x06\x06\x09\x00\x02\x02",
    )?;
    read_all(&rt, b"\x0a\xff\xff\xff\xff\x0f\x0b\x02\x80\x02\x0c\x00")?;
    read_accepted(&rt)?;
    read_cut(&rt)?;
    read_malformed(&rt)?;
    read_unknown(&rt)?;
    write_accepted(&rt)?;
    write_refused(&rt)?;
    write_without_room(&rt)
}

fn read_accepted(rt: &impl Print) -> io::Result<()> {
    read(rt, "two-byte argument", b"\x01\xac\x02", 0)?;
    read(
        rt,
        "largest argument",
        b"\x08\xff\xff\xff\xff\x0f\x80\x01",
        0,
    )?;
    read(rt, "from the middle", b"\x06\x05\x03\x06", 1)
}

fn read_cut(rt: &impl Print) -> io::Result<()> {
    read(rt, "empty trace", b"", 0)?;
    read(rt, "at the end", b"\x06", 1)?;
    read(rt, "past the end", b"\x06", 5)?;
    read(rt, "code cut", b"\x06\x86", 1)?;
    read(rt, "no argument", b"\x01", 0)?;
    read(rt, "argument cut", b"\x01\x80", 0)?;
    read(rt, "no second argument", b"\x08\x05", 0)?;
    read(rt, "Set without mask", b"\x0b\x05", 0)?;
    read(
        rt,
        "second argument cut",
        b"\x08\x85\x01\xff\xff\xff\xff",
        0,
    )
}

fn read_malformed(rt: &impl Print) -> io::Result<()> {
    read(rt, "code not shortest", b"\x86\x00", 0)?;
    read(rt, "argument not shortest", b"\x01\x80\x00", 0)?;
    read(rt, "argument's fifth byte", b"\x01\xff\xff\xff\xff\x10", 0)?;
    read(
        rt,
        "second argument not shortest",
        b"\x08\x00\x80\x80\x80\x80\x00",
        0,
    )
}

fn read_unknown(rt: &impl Print) -> io::Result<()> {
    read(rt, "code 0", b"\x00", 0)?;
    read(rt, "code 13", b"\x06\x06\x0d", 2)?;
    read(rt, "code 13, argument cut", b"\x0d\x80", 0)?;
    read(rt, "code 257", b"\x81\x02\x00", 0)?;
    read(rt, "five-byte code", b"\xff\xff\xff\xff\x0f", 0)
}

fn write_accepted(rt: &impl Print) -> io::Result<()> {
    let mut one = [0xaau8; 1];
    write(rt, "no arguments, exact room", 2, 0, 0, &mut one)?;
    let mut five = [0xaau8; 5];
    write(rt, "one argument, bytes beyond", 1, 300, 0, &mut five)?;
    write(rt, "Wait, bytes beyond", 10, 128, 0, &mut five)?;
    write(rt, "Clear, mask 0", 12, 0, 0, &mut five)?;
    let mut seven = [0xaau8; 7];
    write(rt, "Set, exact room", 11, 2, 4294967295, &mut seven)?;
    let mut eight = [0xaau8; 8];
    write(
        rt,
        "two arguments, exact room",
        8,
        4294967295,
        128,
        &mut eight,
    )
}

fn write_refused(rt: &impl Print) -> io::Result<()> {
    let mut five = [0xaau8; 5];
    write(rt, "code 0", 0, 0, 0, &mut five)?;
    write(rt, "code 13", 13, 0, 0, &mut five)?;
    write(rt, "code 13 before stray", 13, 1, 1, &mut five)?;
    write(rt, "stray first", 2, 1, 0, &mut five)?;
    write(rt, "stray second of none", 6, 0, 1, &mut five)?;
    write(rt, "stray second of one", 3, 1, 7, &mut five)?;
    write(rt, "stray second of Wait", 10, 1, 7, &mut five)?;
    write(rt, "stray second of Clear", 12, 1, 7, &mut five)
}

fn write_without_room(rt: &impl Print) -> io::Result<()> {
    let mut none = [0xaau8; 0];
    write(rt, "code 13 before no room", 13, 0, 0, &mut none)?;
    write(rt, "stray before no room", 2, 1, 0, &mut none)?;
    write(rt, "no room for none", 6, 0, 0, &mut none)?;
    let mut two = [0xaau8; 2];
    write(rt, "no room for one", 1, 300, 0, &mut two)?;
    let mut three = [0xaau8; 3];
    write(rt, "no room for two", 8, 0, 128, &mut three)?;
    write(rt, "no room for Set", 11, 0, 128, &mut three)
}

// Reads event by event, up to the end or a refusal.
fn read_all(rt: &impl Print, trace: &[u8]) -> io::Result<()> {
    let mut at = 0;
    // No range: each event says where the next begins.
    while at < trace.len() {
        let read = read_event(trace, at);
        print_read(rt, read)?;
        let Ok(event) = read else {
            return Ok(());
        };
        at = event.place;
    }
    Ok(())
}

fn read(rt: &impl Print, label: &str, trace: &[u8], at: usize) -> io::Result<()> {
    print!(rt; "{label}: ")?;
    print_read(rt, read_event(trace, at))
}

// The parts of an event and the output meet in this one call.
fn write(
    rt: &impl Print,
    label: &str,
    code: u8,
    first: u32,
    second: u32,
    out: &mut [u8],
) -> io::Result<()> {
    let event = Event {
        code,
        first,
        second,
    };
    let answer = write_event(event, out);
    print!(rt; "{label}: ")?;
    print_answer(rt, answer)?;
    for b in out {
        print!(rt; " {b:02x}")?;
    }
    println!(rt)
}

// A refused reading is printed as the event of zeros.
fn print_read(rt: &impl Print, read: Result<Reading<Event>, Refused>) -> io::Result<()> {
    let event = match read {
        Ok(reading) => reading.value,
        Err(_) => Event::default(),
    };
    print!(rt; "event {} {} {}, ", event.code, event.first, event.second)?;
    print_answer(rt, read.map(|reading| reading.place))?;
    println!(rt)
}

fn print_answer(rt: &impl Print, answer: Result<usize, Refused>) -> io::Result<()> {
    match answer {
        Ok(place) => print!(rt; "refusal 0 place {place}"),
        Err(refused) => print!(rt;
            "refusal {} place {}",
            refused.refusal.code(),
            refused.place
        ),
    }
}
