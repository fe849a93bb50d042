// The events of tables: Tick, Start and Stop. Each is lent the arrays that it reads or changes: why says `Model`.
ghost use Rattle.std.specs.Prelude.{◌≡◌, ◌||◌, ◌+◌, ltb, eqb, get_or};
ghost use Rattle.scheduler.specs.Call.{longest_delay};
ghost use Rattle.machine.specs.Cells.{is_on};
ghost use Rattle.machine.specs.Events.{tick, start, stop};
ghost use Rattle.model.specs.View.{Arrays, put_cells, put_losses, view_with, view_step};

use crate::{Registers, Status, Step};
use cells::{OFF, at, fill, start_cells, tick_entries};
use config::Config;
use plan::Plan;

impl Registers {
    // The cells count, their matches are taken in table order, and arbitration comes once, after all.
    pub fn tick<'a, 'b, 'c, 'd>(
        mut self,
        plan: &'a Plan,
        counter: &'b mut [u16; 64],
        on: &'c mut [u16; 64],
        losses: &'d mut [u16; 32],
    ) -> Step
        ensures { (x : Arrays)
            → view_step result (put_cells counter.new on.new (put_losses losses.new x))
            ≡ tick plan.now.compare plan.now.entry plan.now.priority
            (view_with self (put_cells counter.old on.old (put_losses losses.old x))) }
    {
        let ticked = tick_entries(
            self.turning,
            &plan.compare,
            &plan.entry,
            self.begun(),
            self.request,
            counter,
            on,
            losses,
        );
        self.turning = ticked.turning;
        self.triggering(ticked.request, plan)
    }

    pub fn start<'a, 'b, 'c>(
        mut self,
        config: &'a Config,
        plan: &'a Plan,
        t: u32,
        d: u32,
        counter: &'b mut [u16; 64],
        on: &'c mut [u16; 64],
    ) -> Step
        ensures { (x : Arrays) → view_step result (put_cells counter.new on.new x)
            ≡ start config.now.tables plan.now.first config.now.entries config.now.period config.now.offset
            (view_with self (put_cells counter.old on.old x)) t d }
    {
        if self.no_caller() {
            return self.with_status(Status::CallLevel);
        }
        if config.tables as u32 <= t {
            return self.with_status(Status::NoSuch);
        }
        let table = t as usize;
        let from = at(&plan.first, table, 0);
        if is_bad_delay(d, at(&config.offset, from as usize, 0)) {
            return self.with_status(Status::BadDelay);
        }
        if is_on(on, from) {
            return self.with_status(Status::WrongState);
        }
        self.turning = start_cells(
            self.turning,
            from,
            at(&config.entries, table, 0),
            at(&config.period, table, 0),
            d as u16,
            &config.offset,
            counter,
            on,
        );
        self.with_status(Status::Done)
    }

    pub fn stop<'a, 'b, 'c>(
        self,
        config: &'a Config,
        plan: &'a Plan,
        t: u32,
        counter: &'b mut [u16; 64],
        on: &'c mut [u16; 64],
    ) -> Step
        ensures { (x : Arrays) → view_step result (put_cells counter.new on.new x)
            ≡ stop config.now.tables plan.now.first config.now.entries
            (view_with self (put_cells counter.old on.old x)) t }
    {
        if self.no_caller() {
            return self.with_status(Status::CallLevel);
        }
        if config.tables as u32 <= t {
            return self.with_status(Status::NoSuch);
        }
        let table = t as usize;
        let from = at(&plan.first, table, 0);
        if !is_on(on, from) {
            return self.with_status(Status::NoFunction);
        }
        let count = at(&config.entries, table, 0);
        fill(from, count, 0, counter);
        fill(from, count, OFF, on);
        self.with_status(Status::Done)
    }
}

// Whether the cell of this entry is on.
fn is_on(on: &[u16; 64], entry: u8) -> bool
    ensures { result ≡ is_on (get_or on.now entry 0) }
{
    at(on, entry as usize, 0) != OFF
}

// A delay of 0, or one that with the table's smallest offset is above 65,535.
fn is_bad_delay(d: u32, smallest: u16) -> bool
    ensures { result ≡ eqb d 0 || ltb longest_delay (d + smallest) }
{
    d == 0 || 65535 < d as u64 + smallest as u64
}
