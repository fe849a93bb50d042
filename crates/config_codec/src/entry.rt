// What the task of an entry may be: a task, after the entry before it, and of kind 3 in one table alone.
ghost use Rattle.std.specs.Prelude.{◌≡◌, ◌||◌, ◌<◌, ◌≤◌, OnOk};
ghost use Rattle.config.specs.Draft.{rises};
ghost use Rattle.config_codec.specs.Entry.{bodies_of, entry_at, kind_fault, table_fault, entry_fault};
ghost use Rattle.config_codec.specs.Fault.{fault_code};

use crate::bodies::Bodies;
use crate::position::Position;
use config::Config;
use number::Refusal;

// An entry, and what stands before it: whether it is the `first` of its table, the offset `reached` by the entry before
// and the task of that, the `latest`, and how many entries the tables before have.
#[derive(Clone, Copy)]
pub struct Entry {
    pub offset: u16,
    pub task: u32,
    pub first: bool,
    pub reached: u16,
    pub latest: u8,
    pub earlier: usize,
}

// The entry of `c` at `p`, with the task `v`.
pub fn entry_at(c: &Config, p: Position, v: u32) -> Entry
    requires { (p.index < 8) × (p.entry < 64) }
    ensures { result ≡ entry_at v p c.now.entries c.now.offset c.now.task }
{
    let count = usize::from(c.entries[p.index]);
    let before = p.entry.saturating_sub(1);
    Entry {
        offset: c.offset[p.entry],
        task: v,
        first: p.entry + count == p.until,
        reached: c.offset[before],
        latest: c.task[before],
        earlier: p.until.saturating_sub(count),
    }
}

// Whether an entry comes after the one before it.
fn rises(offset: u16, task: u8, next: u16, v: u32) -> bool
    ensures { result ≡ rises offset task next v }
{
    offset < next || offset == next && u32::from(task) < v
}

// Whether it is the first of its table or comes after the one before it.
fn sorted(x: Entry) -> bool
    ensures { result ≡ (x.first || rises x.reached x.latest x.offset x.task) }
{
    x.first || rises(x.reached, x.latest, x.offset, x.task)
}

// The kinds of the entries of one table: `was` and `here` say whether the entry before and this one are of kind 3,
// `second` whether a table before has one of kind 3.
fn check_kinds(first: bool, same: bool, was: bool, here: bool, second: bool) -> Result<(), Refusal>
    ensures { fault_code result ≡ kind_fault first same was here second }
{
    if !first && same && (was || here) {
        return Err(Refusal::SharedOffset);
    }
    if !first && was != here || here && second {
        return Err(Refusal::MixedTable);
    }
    Ok(())
}

// An entry by the kind of its table.
fn check_table(x: Entry, bodies: Bodies, task: &[u8; 64]) -> Result<(), Refusal>
    requires { x.earlier ≤ 64 }
    ensures { fault_code result ≡ table_fault (bodies_of bodies.count bodies.kind) task.now x }
{
    let here = bodies.is_timed(x.task);
    check_kinds(
        x.first,
        x.reached == x.offset,
        bodies.is_timed(u32::from(x.latest)),
        here,
        here && bodies.some_timed(&task[..x.earlier]),
    )
}

// An entry's task.
pub fn check_entry(x: Entry, bodies: Bodies, task: &[u8; 64]) -> Result<(), Refusal>
    requires { x.earlier ≤ 64 }
    ensures refusal { fault_code result ≡ entry_fault (bodies_of bodies.count bodies.kind) task.now x }
    ensures task { OnOk result (x.task < bodies.count) }
{
    if !bodies.is_task(x.task) {
        return Err(Refusal::BadField);
    }
    if !sorted(x) {
        return Err(Refusal::Unsorted);
    }
    check_table(x, bodies, task)
}
