// Tables and their entries: where a table's entries begin, and what each entry's cell has.
ghost use Rattle.std.specs.Prelude.{◌≡◌, ◌-◌, ◌≤◌, get_or, replicate};
ghost use Rattle.config.specs.Value.{max_entries};
ghost use Rattle.plan.specs.Stores.{listed};
ghost use Rattle.plan.specs.Rank.{no_rank};
ghost use Rattle.plan.specs.Entry.{table_in, entry_count, compare_of};
ghost use Rattle.plan.specs.Plan.{firsts};

use crate::{NO_RANK, listed};
use config::{Config, MAX_ENTRIES, MAX_TABLES};

// By table its first entry, and how many entries there are in all.
#[derive(Clone, Copy)]
pub struct ByTable {
    pub first: [u8; 8],
    pub count: usize,
}

pub fn by_table(config: &Config) -> ByTable
    ensures first { result.first ≡ firsts config.now }
    ensures count { result.count ≡ entry_count config.now }
{
    let tables = (config.tables as usize).min(MAX_TABLES);
    let mut first = [0u8; 8];
    let mut total = 0usize;
    for t in 0..tables {
        first[t] = total.min(MAX_ENTRIES) as u8;
        total += config.entries[t] as usize;
    }
    ByTable {
        first,
        count: total.min(MAX_ENTRIES),
    }
}

// The table that an entry is of; 8 where it is of none, as the definition `table_in` has it.
fn table_of(entries: &[u8; 8], e: usize) -> usize
    ensures { result ≡ table_in entries.now e }
{
    let mut left = e;
    for t in 0..MAX_TABLES {
        let k = entries[t] as usize;
        if left < k {
            return t;
        }
        left -= k;
    }
    MAX_TABLES
}

// The compare value of a table's cells.
fn compare(period: &[u16; 8], t: usize) -> u16
    ensures { result ≡ get_or period.now t 0 - 1 }
{
    period.get(t).copied().unwrap_or(0).saturating_sub(1)
}

pub fn compares(config: &Config, count: usize) -> [u16; 64]
    requires { count ≤ max_entries }
    ensures { result ≡ listed (compare_of config.now) count (replicate max_entries 0) }
{
    listed(
        count,
        0,
        |e| compare(&config.period, table_of(&config.entries, e)),
    )
}

// The rank of a body, by its number.
fn rank_of(ranks: &[u8; 32], b: u8) -> u8
    ensures { result ≡ get_or ranks.now b no_rank }
{
    ranks.get(b as usize).copied().unwrap_or(NO_RANK)
}

pub fn entry_ranks(task: &[u8; 64], ranks: &[u8; 32], count: usize) -> [u8; 64]
    requires { count ≤ max_entries }
    ensures { result ≡ listed (λ e. get_or ranks.now (get_or task.now e 0) no_rank) count (replicate max_entries 0) }
{
    listed(count, 0, |e| rank_of(ranks, task[e]))
}
