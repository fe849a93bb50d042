// Ticks rows of 0, 1, 64 and 1,000 cells where they lie, and prints what becomes of them: the values in `stdout` are
// worked out by hand.
//
// A row is the first cells of an array of 1,000, of six kinds in turn. A line has the row's length, how many of its
// cells matched at each of nine ticks, after them the sum of its counters and how many of its cells have a turn to
// pass, and the same for the cells past its end, which no tick may touch.
#![tactic(auto)]

ghost use Rattle.std.specs.Prelude.{◌≡◌, ◌++◌, ◌≤◌, length, take, drop};
ghost use Rattle.cell.specs.Rows.{ticked_row};

use cell::Cell;
use std::io;

// Lends the first n cells to the row tick.
fn tick_first(mut row: [Cell; 1000], n: usize) -> [Cell; 1000]
    requires { n ≤ 1000 }
    ensures { result ≡ ticked_row (take n row) ++ drop n row }
{
    cell::row::tick_row(&mut row[..n]);
    row
}

// A cell that is off, a tick before its compare value, with a mark from before.
fn off_and_marked(turn: bool) -> Cell {
    Cell {
        matched: true,
        ..Cell::of(4, 5, false, turn)
    }
}

// In turn: a cell due at ticks 3 and 7; one due at every tick; one that is off; one that wraps at tick 1 and matches at
// tick 8; one due at tick 65,540, whose counter reaches the compare value at tick 4 too; one that is off with a turn to
// pass.
fn kind(i: usize) -> Cell {
    match i % 6 {
        0 => Cell::start(4, 1, 2),
        1 => Cell::start(1, 1, 0),
        2 => off_and_marked(false),
        3 => Cell::of(65535, 7, true, false),
        4 => Cell::start(8, 65535, 5),
        _ => off_and_marked(true),
    }
}

// How many of the cells pass the test.
fn count<F: Fn(&Cell) -> bool>(cells: &[Cell], test: F) -> u64
    requires { F.IsAlwaysCallable test }
{
    cells.iter().filter(|cell| test(cell)).count() as u64
}

fn counters(cells: &[Cell]) -> u64
    requires { length cells.now ≤ 1000 }
{
    cells.iter().map(|cell| cell.counter as u64).sum()
}

fn show(rt: &impl Print, n: usize) -> io::Result<()>
    requires { n ≤ 1000 }
{
    print!(rt; "{n}")?;
    let mut row: [Cell; 1000] = std::array::from_fn(kind);
    for _ in 0usize..9 {
        let next = tick_first(row, n);
        row = next;
        let matched = count(&row[..n], |cell| cell.matched);
        print!(rt; " {matched}")?;
    }
    for part in [&row[..n], &row[n..]] {
        let sum = counters(part);
        let turns = count(part, |cell| cell.turn);
        print!(rt; " {sum} {turns}")?;
    }
    println!(rt)
}

fn main(rt: HostRuntime) -> io::Result<()> {
    for n in [0usize, 1, 64, 1000] {
        show(&rt, n)?;
    }
    Ok(())
}
