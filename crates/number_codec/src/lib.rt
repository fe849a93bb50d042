// The numbers of the format, read and written: unsigned LEB128 in its shortest (canonical) form, at
// most five bytes.
#![tactic(auto)]

ghost use Rattle.std.specs.Prelude.{◌≡◌, ◌≤◌, length, drop};
ghost use Rattle.number.specs.Number.{shifted, groups, leading, read_number, number_bytes};
ghost use Rattle.number.specs.Output.{writing, written};
ghost use Rattle.number.specs.Answer.{as_number_read, as_written};

use number::{Reading, Refusal, Refused};

// How many groups may stand before the last one.
const LEADING: usize = 4;

// The number at a place of `bytes`. Most numbers of a trace have one byte, so these come first.
pub fn read_number(bytes: &[u8], at: usize) -> Result<Reading<u32>, Refused>
    ensures { as_number_read result ≡ read_number bytes.now at }
{
    if at < bytes.len() && bytes[at] < 128 {
        return Ok(Reading {
            value: bytes[at] as u32,
            place: at + 1,
        });
    }
    read_groups(bytes, at, LEADING)
}

// The number at `at`, with at most `more` groups before its last one.
fn read_groups(bytes: &[u8], at: usize, more: usize) -> Result<Reading<u32>, Refused>
    requires { more ≤ leading }
    ensures { as_number_read result ≡ shifted at (groups more (drop at bytes.now)) }
{
    if bytes.len() <= at {
        return Err(Refused {
            refusal: Refusal::Cut,
            place: at,
        });
    }
    let b = bytes[at];
    if more == 0 {
        return if b < 16 {
            Ok(Reading {
                value: b as u32,
                place: at + 1,
            })
        } else {
            Err(Refused {
                refusal: Refusal::Malformed,
                place: at,
            })
        };
    }
    if b < 128 {
        return Ok(Reading {
            value: b as u32,
            place: at + 1,
        });
    }
    let rest = read_groups(bytes, at + 1, more - 1)?;
    // The groups after this one make 0 only as one superfluous byte.
    if rest.value == 0 {
        return Err(Refused {
            refusal: Refusal::Malformed,
            place: at + 1,
        });
    }
    Ok(Reading {
        value: (b % 128) as u32 + 128 * rest.value,
        place: rest.place,
    })
}

// The number at a place where one was read before; 0 where it can't be read.
pub fn number_at(bytes: &[u8], at: usize) -> Reading<u32>
    ensures value { result.value ≡ (read_number bytes.now at).value }
    ensures place { result.place ≡ (read_number bytes.now at).place }
{
    read_number(bytes, at).unwrap_or_else(|refused| Reading {
        value: 0,
        place: refused.place,
    })
}

// Two numbers, and the place behind the second.
#[derive(Clone, Copy)]
pub struct Pair {
    pub first: u32,
    pub second: u32,
    pub place: usize,
}

// The same of two numbers, one behind the other. Most numbers of a trace have one byte, so these come first.
pub fn read_pair(bytes: &[u8], at: usize) -> Pair
    ensures first { result.first ≡ (read_number bytes.now at).value }
    ensures second { result.second
        ≡ (read_number bytes.now (read_number bytes.now at).place).value }
    ensures place { result.place
        ≡ (read_number bytes.now (read_number bytes.now at).place).place }
{
    if bytes.len() <= at || bytes.len() - at < 2 {
        return long_pair(bytes, at);
    }
    let next = at + 1;
    let first = bytes[at];
    let second = bytes[next];
    if first < 128 && second < 128 {
        return Pair {
            first: first as u32,
            second: second as u32,
            place: next + 1,
        };
    }
    long_pair(bytes, at)
}

// The same, number by number.
fn long_pair(bytes: &[u8], at: usize) -> Pair
    ensures first { result.first ≡ (read_number bytes.now at).value }
    ensures second { result.second
        ≡ (read_number bytes.now (read_number bytes.now at).place).value }
    ensures place { result.place
        ≡ (read_number bytes.now (read_number bytes.now at).place).place }
{
    let first = number_at(bytes, at);
    let second = number_at(bytes, first.place);
    Pair {
        first: first.value,
        second: second.value,
        place: second.place,
    }
}

// How many bytes the number takes.
pub fn number_length(value: u32) -> usize
    ensures { result ≡ length (number_bytes value) }
{
    if value < 0x80 {
        1
    } else if value < 0x4000 {
        2
    } else if value < 0x20_0000 {
        3
    } else if value < 0x1000_0000 {
        4
    } else {
        5
    }
}

// Writes the number at the start of `out`, or nothing where it does not fit; gives its length.
pub fn write_number(value: u32, out: &mut [u8]) -> Result<usize, Refused>
    ensures result { as_written result ≡ writing (number_bytes value) (length out.old) }
    ensures output { out.new ≡ written (number_bytes value) out.old }
{
    let n = number_length(value);
    if out.len() < n {
        return Err(Refused {
            refusal: Refusal::NoRoom,
            place: n,
        });
    }
    write_groups(value, out);
    Ok(n)
}

// Writes the number at the start of `out`, which has room for it.
fn write_groups(value: u32, out: &mut [u8])
    requires { length (number_bytes value) ≤ length out.old }
    ensures { out.new ≡ written (number_bytes value) out.old }
{
    if value < 128 {
        out[0] = value as u8;
        return;
    }
    out[0] = 128 + (value % 128) as u8;
    write_groups(value / 128, &mut out[1..]);
}
