// The deadline cells, one a body, by body.
ghost use Rattle.std.specs.Prelude.{◌≡◌, not, ◌&&◌, ◌||◌, ◌<◌, ◌≤◌, ◌^◌, take};
ghost use Rattle.config.specs.Value.{max_bodies};
ghost use Rattle.deadlines.specs.DeadlineCells.{suspended_cell, ready_cell, counted_cell, matches_of};
ghost use Rattle.misses.specs.Change.{cell_after, cell_by, row_by, fresh_cell_in, fresh_row_by};
ghost use Rattle.misses.specs.Noted.{NotesMore};

use crate::change::Change;
use crate::list::{Miss, Misses};
use cell::Cell;
use std::array;
use word::has;

// The cells with what they go by: the rank and the deadline of each body, and how many bodies there are. These two are
// the tables of the plan and of the configuration: a struct for each body would take them apart, and be no plainer.
#[derive(Clone, Copy)]
pub struct DeadlineCells {
    pub cells: [Cell; 32],
    pub ranks: [u8; 32],
    pub deadlines: [u16; 32],
    pub bodies: usize,
    ghost few_bodies: { bodies ≤ max_bodies },
}

impl DeadlineCells {
    // The cells at the fresh start: those of the ranks in `active` count, where they have a deadline.
    pub fn fresh(active: u32, ranks: [u8; 32], deadlines: [u16; 32], bodies: usize) -> DeadlineCells
        requires { bodies ≤ max_bodies }
        ensures cells { take bodies result.cells ≡ fresh_row_by active ranks deadlines bodies }
        ensures ranks { result.ranks ≡ ranks }
        ensures deadlines { result.deadlines ≡ deadlines }
        ensures bodies { result.bodies ≡ bodies }
    {
        let cells = array::from_fn(|b: usize| fresh_cell(
            has(active, ranks[b] as u32),
            deadlines[b],
        ));
        DeadlineCells {
            cells,
            ranks,
            deadlines,
            bodies,
        }
    }

    // The cells after an event: only those of the bodies move.
    pub fn moved(self, change: Change) -> DeadlineCells
        ensures cells { take self.bodies result.cells
            ≡ row_by change self.ranks self.deadlines self.bodies self.cells }
        ensures ranks { result.ranks ≡ self.ranks }
        ensures deadlines { result.deadlines ≡ self.deadlines }
        ensures bodies { result.bodies ≡ self.bodies }
    {
        let DeadlineCells {
            cells: met,
            ranks,
            deadlines,
            bodies,
        } = self;
        let mut cells = met;
        for b in 0..bodies {
            cells[b] = moved_cell(met[b], change, b as u8, ranks[b], deadlines[b]);
        }
        DeadlineCells {
            cells,
            ranks,
            deadlines,
            bodies,
        }
    }

    // Notes the cells that match at this Tick, in order of body.
    pub fn note_matches(&self, tick: u16, misses: &mut Misses)
        requires { misses.old.count < 2 ^ 63 }
        ensures { NotesMore misses.old misses.new (matches_of tick 0 (take self.now.bodies self.now.cells)) }
    {
        for (body, cell) in self.cells[..self.bodies].iter().enumerate() {
            if cell.tick().matched {
                misses.note(Miss {
                    tick,
                    body: body as u8,
                });
            }
        }
    }
}

// The cell of a body after an event.
fn moved_cell(cell: Cell, change: Change, body: u8, rank: u8, deadline: u16) -> Cell
    ensures { result ≡ cell_by change body rank deadline cell }
{
    let before = has(change.before, rank as u32);
    let after = has(change.after, rank as u32);
    cell_after(
        cell,
        deadline,
        before,
        after,
        change.chained == Some(body),
        change.tick,
    )
}

// The same by whether the body was active before the event and is after it, whether it chained to itself, and whether
// the event is a Tick: the parameters of the definition `cell_after`.
fn cell_after(
    cell: Cell,
    deadline: u16,
    before: bool,
    after: bool,
    chained: bool,
    tick: bool,
) -> Cell
    ensures { result ≡ cell_after deadline before after chained tick cell }
{
    if turned(before, after, chained) {
        return started_cell(deadline);
    }
    if turned(after, before, chained) {
        return cell.stop();
    }
    if tick { counted_cell(cell) } else { cell }
}

// Whether an event made a body active that was not, or, with the two exchanged, suspended; a Chain to itself does both.
fn turned(from: bool, to: bool, chained: bool) -> bool
    ensures { result ≡ (to && not from) || chained }
{
    chained || (to && !from)
}

fn fresh_cell(active: bool, deadline: u16) -> Cell
    ensures { result ≡ fresh_cell_in active deadline }
{
    if active {
        started_cell(deadline)
    } else {
        resting_cell(deadline)
    }
}

// The cell of a body that becomes ready; without a deadline it stays off.
fn started_cell(deadline: u16) -> Cell
    ensures { result ≡ ready_cell deadline }
{
    if deadline == 0 {
        return resting_cell(deadline);
    }
    Cell::start(deadline, deadline, 0)
}

fn resting_cell(deadline: u16) -> Cell
    ensures { result ≡ suspended_cell deadline }
{
    Cell::start(deadline, deadline, 0).stop()
}

// The cell after a Tick: its match switches it off.
fn counted_cell(cell: Cell) -> Cell
    ensures { result ≡ counted_cell cell }
{
    let next = cell.tick();
    if next.matched { next.stop() } else { next }
}
