// The events of extended tasks: Wait, Set and Clear. What OSEK calls an event is an event bit here: a task has 32. Each
// is lent the rows that it reads or changes: why says `Model`.
ghost use Rattle.std.specs.Prelude.{◌≡◌, cond, ◌&&◌, ◌||◌, eqb};
ghost use Rattle.scheduler.specs.Bits.{any_set};
ghost use Rattle.word.specs.Word.{has};
ghost use Rattle.machine.specs.Model.{no_rank};
ghost use Rattle.machine.specs.Events.{wait, set_event, clear};
ghost use Rattle.model.specs.View.{Arrays, put_bits, put_event_bits, view_with, view_step};

use crate::{Core, Registers, Status, Step};
use cells::{NO_RANK, at};
use plan::Plan;
use std::hint::select_unpredictable;
use word::{has, with, without};

impl Registers {
    pub fn wait<'a, 'b>(
        self,
        plan: &'a Plan,
        mask: u32,
        bits: &'a [u32; 32],
        waited: &'b mut [u32; 32],
    ) -> Step
        ensures { (x : Arrays) → view_step result (put_event_bits bits.now waited.new x)
            ≡ wait plan.now.extended plan.now.priority
            (view_with self (put_event_bits bits.now waited.old x)) mask }
    {
        if self.no_caller() {
            return self.with_status(Status::CallLevel);
        }
        let rank = self.runner as u32;
        if !has(plan.extended, rank) {
            return self.with_status(Status::Access);
        }
        if self.holder.top() == self.runner {
            return self.with_status(Status::HoldsResource);
        }
        if any_set(self.bits_of(bits[rank as usize], rank), mask) {
            return self.with_status(Status::Done);
        }
        waited[rank as usize] = mask;
        let core = self.left_with(without(self.started, rank), with(self.aside, rank));
        self.settled(core, plan)
    }

    pub fn set_event<'a, 'b>(
        mut self,
        plan: &'a Plan,
        t: u32,
        mask: u32,
        waited: &'a [u32; 32],
        bits: &'b mut [u32; 32],
    ) -> Step
        ensures { (x : Arrays) → view_step result (put_event_bits bits.new waited.now x)
            ≡ set_event plan.now.isrs plan.now.extended plan.now.rank plan.now.priority
            (view_with self (put_event_bits bits.old waited.now x)) t mask }
    {
        if self.no_caller() {
            return self.with_status(Status::CallLevel);
        }
        let body = at(&plan.rank, t as usize, NO_RANK);
        let rank = body as u32;
        if no_task(plan.isrs, body) {
            return self.with_status(Status::NoSuch);
        }
        if !has(plan.extended, rank) {
            return self.with_status(Status::Access);
        }
        if !self.busy(body) {
            return self.with_status(Status::WrongState);
        }
        let set = self.bits_of(bits[rank as usize], rank) | mask;
        bits[rank as usize] = set;
        let resumed = resumes(self.aside, rank, set, waited[rank as usize]);
        self.cleared = without(self.cleared, rank);
        let core = Core {
            started: select_unpredictable(resumed, with(self.started, rank), self.started),
            aside: select_unpredictable(resumed, without(self.aside, rank), self.aside),
            ..self.core()
        };
        self.settled(core, plan)
    }

    pub fn clear(mut self, plan: &Plan, mask: u32, bits: &mut [u32; 32]) -> Step
        ensures { (x : Arrays) → view_step result (put_bits bits.new x)
            ≡ clear plan.now.extended (view_with self (put_bits bits.old x)) mask }
    {
        if self.no_caller() {
            return self.with_status(Status::CallLevel);
        }
        let rank = self.runner as u32;
        if !has(plan.extended, rank) {
            return self.with_status(Status::Access);
        }
        bits[rank as usize] = self.bits_of(bits[rank as usize], rank) & !mask;
        self.cleared = without(self.cleared, rank);
        self.with_status(Status::Done)
    }

    // The event bits of the body of this rank, of which the row keeps these.
    fn bits_of(self, kept: u32, rank: u32) -> u32
        ensures { result ≡ cond (has self.cleared rank) 0 kept }
    {
        select_unpredictable(has(self.cleared, rank), 0, kept)
    }
}

// Whether one of the bits that the mask names is set.
#[tactic(auto, unfolding(scheduler::specs::Bits::any_set))]
fn any_set(bits: u32, mask: u32) -> bool
    ensures { result ≡ any_set bits mask }
{
    bits & mask != 0
}

// Whether this is no task's rank: nobody's, or an ISR's.
fn no_task(isrs: u32, rank: u8) -> bool
    ensures { result ≡ eqb rank no_rank || has isrs rank }
{
    rank == NO_RANK || has(isrs, rank as u32)
}

// Whether the body of this rank waits, and with these event bits one that it waits for is set.
fn resumes(aside: u32, rank: u32, bits: u32, mask: u32) -> bool
    ensures { result ≡ has aside rank && any_set bits mask }
{
    has(aside, rank) && any_set(bits, mask)
}
