// The cells of the entries: what a tick, a start and a stop make of them.
//
// Parallel arrays, lent one by one, and no row of structs: the compiler then ticks several cells at once, and copies only
// the arrays that an event touches (docs/PERFORMANCE.md).
#![tactic(auto)]

ghost use Rattle.std.specs.Prelude.{◌≡◌, ◌+◌, ◌≤◌, min, cond, ◌&&◌, ◌||◌, take, drop, if◌then◌else◌, nat_lt};
ghost use Rattle.config.specs.Value.{max_bodies, max_entries};
ghost use Rattle.machine.specs.Cells.{is_on, has_turn, counters_ticked, switch_for, switches_ticked, some_turn, marks, counters_started, switches_started, in_row, spread, some_long, one_lost, match_at, requests_due};
ghost use Rattle.cells.specs.Methods.{tally_with, group, marks_word};
ghost use Rattle.word.specs.Word.{has};

use cell::Cell;
use config::{MAX_BODIES, MAX_ENTRIES};
use stack::NO_BYTE;
use word::{has, with};

mod lookup;

pub use lookup::at;

// No body: instead of a rank it says that nobody runs, or that there is no such task or ISR. It is what lies
// past the bottom of the row of held resources. A number and no Option: the definitions (`no_rank`) store it in the plan.
pub const NO_RANK: u8 = NO_BYTE;

// One cell for each entry that there may be.
const CELLS: usize = MAX_ENTRIES;

// One loss count for each body that there may be.
const BODIES: usize = MAX_BODIES;

// The switch of a cell (its enable): a number, as in the definitions (`switch_off` ..), and as wide as a counter, so that
// the compiler ticks several cells at once.
pub const OFF: u16 = 0;

const ON: u16 = 1;

// On, and a turn of the counter must pass unmatched.
const TURN: u16 = 2;

// How many match marks are looked at in one go.
const GROUP: usize = 8;

// What a tick leaves: the requests, and whether any cell has a turn to pass.
#[derive(Clone, Copy)]
pub struct Ticked {
    pub request: u32,
    pub turning: bool,
}

// Ticks every cell and takes the matches in table order; `turning`: whether any cell has a turn to pass, `ranks`: those
// of the entries' tasks, `begun`: the ranks that have begun and not ended.
pub fn tick_entries(
    turning: bool,
    compare: &[u16; 64],
    ranks: &[u8; 64],
    begun: u32,
    request: u32,
    counter: &mut [u16; 64],
    on: &mut [u16; 64],
    losses: &mut [u16; 32],
) -> Ticked
    ensures losses_after { tally_with result.request losses.new
        ≡ requests_due begun (marks max_entries 0 turning compare.now on.old counter.old)
        ranks.now (tally_with request losses.old) }
    ensures counter_after { counter.new
        ≡ counters_ticked max_entries 0 turning compare.now on.old counter.old }
    ensures on_after { on.new
        ≡ cond turning (switches_ticked max_entries 0 compare.now counter.old on.old)
        on.old }
    ensures turning_value { result.turning ≡ turning && some_turn max_entries 0 on.new }
{
    let matched = tick_cells(turning, compare, counter, on);
    let request = take_matches(&matched, ranks, begun, request, losses);
    let turning = turning && some_turn(on);
    Ticked { request, turning }
}

// Ticks every cell, and gives their match marks. The compiler makes two loops of the one, with turns and without.
fn tick_cells(
    turning: bool,
    compare: &[u16; 64],
    counter: &mut [u16; 64],
    on: &mut [u16; 64],
) -> [bool; 64]
    ensures value { result
        ≡ marks max_entries 0 turning compare.now on.old counter.old }
    ensures counter_after { counter.new
        ≡ counters_ticked max_entries 0 turning compare.now on.old counter.old }
    ensures on_after { on.new
        ≡ cond turning (switches_ticked max_entries 0 compare.now counter.old on.old)
        on.old }
{
    let mut matched = [false; 64];
    for e in 0..CELLS {
        let switch = on[e];
        let turn = has_turn(turning, switch);
        let cell = Cell::of(counter[e], compare[e], switch != OFF, turn).tick();
        counter[e] = cell.counter;
        on[e] = switch_after(turning, switch, cell.turn);
        matched[e] = cell.matched;
    }
    matched
}

// Whether the cell of this switch has a turn to pass.
fn has_turn(turning: bool, switch: u16) -> bool
    ensures { result ≡ turning && has_turn switch }
{
    turning && switch == TURN
}

// The switch after a tick that leaves this turn: it stays where no cell had one to pass.
fn switch_after(turning: bool, switch: u16, turn: bool) -> u16
    ensures { result ≡ (if turning then switch_for (is_on switch) turn else switch) }
{
    if turning {
        switch_for(switch != OFF, turn)
    } else {
        switch
    }
}

fn switch_for(on: bool, turn: bool) -> u16
    ensures { result ≡ switch_for on turn }
{
    if turn {
        TURN
    } else if on {
        ON
    } else {
        OFF
    }
}

// Whether any cell has a turn to pass. Without a second way out the loop is a few vector instructions.
fn some_turn(on: &[u16; 64]) -> bool
    ensures { result ≡ some_turn max_entries 0 on.now }
{
    let mut found = false;
    for switch in on {
        found |= *switch == TURN;
    }
    found
}

// Takes the matches in table order, and gives the requests after them.
fn take_matches(
    matched: &[bool; 64],
    ranks: &[u8; 64],
    begun: u32,
    request: u32,
    losses: &mut [u16; 32],
) -> u32
    ensures { tally_with result losses.new
        ≡ requests_due begun matched.now ranks.now (tally_with request losses.old) }
{
    let mut word = request;
    for group in 0..CELLS / GROUP {
        word = take_group(group * GROUP, matched, ranks, begun, word, losses);
    }
    word
}

// Takes the matches of the group of cells from `from` on. A mark that is set is found by the zeros below it, and not
// by a branch for each mark, which the processor could not foresee. The loop goes over bits and not indices, and an
// iterator of its own for this one place is no plainer.
#[tactic(auto, using(crate::proofs::Marks::next_lt, crate::proofs::Marks::zeros_lt))]
fn take_group(
    from: usize,
    matched: &[bool; 64],
    ranks: &[u8; 64],
    begun: u32,
    request: u32,
    losses: &mut [u16; 32],
) -> u32
    requires { from + group ≤ max_entries }
    ensures { tally_with result losses.new
        ≡ requests_due begun (take group (drop from matched.now)) (drop from ranks.now)
        (tally_with request losses.old) }
{
    let mut word = request;
    let mut e = from;
    let mut marks = group_word(matched, from);
    while marks != 0 {
        let zeros = marks.trailing_zeros();
        e += (zeros / 8) as usize;
        let rank = at(ranks, e, NO_RANK);
        word = take_match(rank, begun, word, losses);
        e += 1;
        marks = (marks >> zeros) / 256;
    }
    word
}

// The marks of the group from `e` on as one number, a byte each, the first the lowest: the compiler makes one load of
// it.
fn group_word(matched: &[bool; 64], e: usize) -> u64
    requires { e + group ≤ max_entries }
    ensures { result ≡ marks_word (take group (drop e matched.now)) }
{
    u64::from_le_bytes([
        matched[e] as u8,
        matched[e + 1] as u8,
        matched[e + 2] as u8,
        matched[e + 3] as u8,
        matched[e + 4] as u8,
        matched[e + 5] as u8,
        matched[e + 6] as u8,
        matched[e + 7] as u8,
    ])
}

// A match of an entry whose task has this rank: a request where the task is suspended, else a loss.
fn take_match(rank: u8, begun: u32, request: u32, losses: &mut [u16; 32]) -> u32
    ensures { tally_with result losses.new ≡ match_at begun rank (tally_with request losses.old) }
{
    if busy(request, begun, rank) {
        lose(losses, rank);
        return request;
    }
    with(request, rank as u32)
}

// One more is lost at this rank, and a count stays at 65,535 once there; a number that is no rank changes nothing. Every
// element is written, because a row that is read whole after a write to one of them makes the processor wait. `below` is
// how far the rank is above r, as wide as a count, so that eight are tested at once: a test of r itself is made four
// times as wide.
pub fn lose(losses: &mut [u16; 32], rank: u8)
    ensures { losses.new
        ≡ (if nat_lt rank max_bodies then one_lost rank losses.old else losses.old) }
{
    let mut below = rank as u16;
    for r in 0..BODIES {
        losses[r] = losses[r].saturating_add((below == 0) as u16);
        below = below.wrapping_sub(1);
    }
}

// Starts `count` cells, none past the row's end, and says whether any cell has a turn to pass then; `turning`: whether
// one had before.
pub fn start_cells(
    turning: bool,
    from: u8,
    count: u8,
    period: u16,
    delay: u16,
    offset: &[u16; 64],
    counter: &mut [u16; 64],
    on: &mut [u16; 64],
) -> bool
    ensures value { result ≡ turning || some_long (in_row count from) from delay offset.now }
    ensures counter_after { counter.new
        ≡ counters_started (in_row count from) from period delay offset.now counter.old }
    ensures on_after { on.new
        ≡ switches_started (in_row count from) from delay offset.now on.old }
{
    let until = row_end(from, count);
    let mut some = turning;
    for e in from as usize..until {
        let cell = Cell::start(period, delay, offset[e]);
        counter[e] = cell.counter;
        on[e] = switch_for(true, cell.turn);
        some |= cell.turn;
    }
    some
}

// Sets `count` elements of a row, none past its end.
pub fn fill(from: u8, count: u8, to: u16, row: &mut [u16; 64])
    ensures { row.new ≡ spread (λ _. to) (in_row count from) from row.old }
{
    let until = row_end(from, count);
    let from = (from as usize).min(until);
    row[from..until].fill(to);
}

// Where the `count` elements from `from` on end, or the row.
fn row_end(from: u8, count: u8) -> usize
    ensures { result ≡ min (from + count) max_entries }
{
    (from as usize + count as usize).min(CELLS)
}

// Whether the body of this rank is ready, or has begun and not ended.
pub fn busy(request: u32, begun: u32, rank: u8) -> bool
    ensures { result ≡ has request rank || has begun rank }
{
    has(request, rank as u32) || has(begun, rank as u32)
}
