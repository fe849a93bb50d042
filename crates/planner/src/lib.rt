// The static tables that the machine's events look up, derived once from a configuration.
#![tactic(auto)]

mod bodies;
mod entries;
mod resources;

ghost use Rattle.std.specs.Prelude.{◌≡◌, ℕ, ◌≤◌, ◌<◌, slice_index_or};
ghost use Rattle.plan.specs.Plan.{plan_of};

use bodies::{Bodies, ByRank};
use config::{Config, EXTENDED, ISR};
use plan::Plan;
use resources::ByResource;

// The rank of whatever has none. A number and no Option: the definitions (`no_rank`) store it in the plan. Crate cells,
// which this one does not see, has it too.
pub const NO_RANK: u8 = u8::MAX;

// The flag of an autostart task, a number of a configuration's row.
const AUTOSTART: u8 = 1;

// The plan of a configuration. Its rows, by body, rank, resource, table or entry, are arrays of their own, as plan's
// definitions have them.
pub fn plan_of(config: Config) -> Plan
    ensures { result ≡ plan_of config }
{
    let bodies = Bodies::of(&config);
    let ranked = bodies.by_rank();
    let resources = bodies.by_resource(&config);
    let tables = entries::by_table(&config);
    let count = tables.count;
    let callable = bodies.callable();
    let line = bodies.line();
    let isrs = bodies.marked(&config.kind, ISR);
    let extended = bodies.marked(&config.kind, EXTENDED);
    let autostart = bodies.marked(&config.autostart, AUTOSTART);
    let compare = entries::compares(&config, count);
    let entry = entries::entry_ranks(&config.task, &bodies.rank, count);
    let rank = bodies.rank;
    let ByRank { priority, body } = ranked;
    let ByResource { ceiling, users } = resources;
    let first = tables.first;
    Plan {
        rank,
        callable,
        line,
        priority,
        body,
        isrs,
        extended,
        autostart,
        ceiling,
        users,
        first,
        compare,
        entry,
        count,
    }
}

// The array with `f` of each index below `n`, and `rest` from there on.
fn listed<T: Copy, const N: usize, F: Fn(usize) -> T>(n: usize, rest: T, f: F) -> [T; N]
    requires fits { n ≤ N }
    requires callable { (i : ℕ) → i < n → F.pre f i }
    ensures below { (i : ℕ) (d : T) → i < n → F.post f i (slice_index_or result i d) }
    ensures past { (i : ℕ) (d : T) → n ≤ i → i < N → slice_index_or result i d ≡ rest }
{
    let mut array = [rest; N];
    for i in 0..n {
        array[i] = f(i);
    }
    array
}
