// One timer cell by value: a 16-bit counter that says when its entry of a schedule table is due.
//
// Document 01's words: a cell is a timer cell, its switch the cell enable, an entry an expiry point. The contracts cite
// specs/Cell.antt; when a cell matches is stated in proofs/Theorems.antt. The registers named below are those of source
// document 002, where two local timer cells (LTC) of a TriCore TC1796 make a timer cell: one in reset timer mode
// counts, the next one in compare mode compares.
#![tactic(auto)]

ghost use Rattle.std.specs.Prelude.{◌≡◌, ◌+◌, true, false};
ghost use Rattle.cell.specs.Cell.{unmarked, start_counter, long, start_cell, tick_cell, stop_cell};

pub mod row;

#[derive(Clone, Copy)]
pub struct Cell {
    // The counter register: that of the reset timer LTC.
    pub counter: u16,
    // The compare register, that of the compare LTC: the counter value at which the cell matches.
    pub compare: u16,
    // The switch, or cell enable bit (AIL of the reset timer LTC): whether the cell counts.
    pub on: bool,
    // The match mark, or service request of the compare LTC: whether the last tick brought the counter to the compare
    // value.
    pub matched: bool,
    // No register but a flag beside them: whether a turn of the counter, 65,536 ticks, must pass unmatched.
    pub turn: bool,
}

// A match sets the counter register to 65,535 and not to 0: the next tick wraps it to 0, so no period is a tick short.
const RESET: u16 = u16::MAX;

// The counter register at a start: the delay and then the offset are taken from the compare value, each by a 16-bit
// subtraction that wraps.
fn start_counter(compare: u16, delay: u16, offset: u16) -> u16
    ensures { result ≡ start_counter compare (delay + offset) }
{
    compare.wrapping_sub(delay).wrapping_sub(offset)
}

// Whether the first match is more than a turn of the counter ahead.
pub fn is_long(delay: u16, offset: u16) -> bool
    ensures { result ≡ long (delay + offset) }
{
    65536 < delay as u32 + offset as u32
}

impl Cell {
    // A cell of plain numbers, for whoever keeps cells as parallel arrays.
    pub fn of(counter: u16, compare: u16, on: bool, turn: bool) -> Cell
        ensures { result ≡ unmarked counter compare on turn }
    {
        Cell {
            counter,
            compare,
            on,
            matched: false,
            turn,
        }
    }

    // The cell of an entry at `offset` of a table with this period, started with `delay`: its first match is `delay +
    // offset` ticks ahead, and each later one a period on.
    pub fn start(period: u16, delay: u16, offset: u16) -> Cell
        ensures { result ≡ start_cell period (delay + offset) }
    {
        let compare = period.wrapping_sub(1);
        let counter = start_counter(compare, delay, offset);
        Cell::of(counter, compare, true, is_long(delay, offset))
    }

    #[tactic(auto, unfolding(crate::specs::Cell::tick_cell_in))]
    pub fn tick(self) -> Cell
        ensures { result ≡ tick_cell self }
    {
        let sum = self.counter.wrapping_add(1);
        let counter = if self.on { sum } else { self.counter };
        let reached = self.on && counter == self.compare;
        let matched = reached && !self.turn;
        Cell {
            counter: if matched { RESET } else { counter },
            matched,
            turn: self.turn && !reached,
            ..self
        }
    }

    pub fn stop(self) -> Cell
        ensures { result ≡ stop_cell self }
    {
        Cell::of(0, self.compare, false, false)
    }
}
