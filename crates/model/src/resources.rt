// The held resources, in the order taken: Get and Release.
ghost use Rattle.std.specs.Prelude.{◌≡◌, cond, ◌&&◌, eqb, get_or};
ghost use Rattle.stack.specs.Stack.{top_row, second_row};
ghost use Rattle.machine.specs.Events.{get, release};
ghost use Rattle.model.specs.View.{Arrays, view_with, view_step};

use crate::{Core, Registers, Status, Step};
use cells::at;
use config::Config;
use plan::Plan;
use std::hint::select_unpredictable;
use word::{has, with, without};

impl Registers {
    pub fn get(mut self, config: &Config, plan: &Plan, r: u32) -> Step
        ensures { (x : Arrays) → view_step result x
            ≡ get config.now.resources plan.now.users plan.now.ceiling (view_with self x) r }
    {
        if self.no_caller() {
            return self.with_status(Status::CallLevel);
        }
        if config.resources as u32 <= r {
            return self.with_status(Status::NoSuch);
        }
        if !has(at(&plan.users, r as usize, 0), self.runner as u32) {
            return self.with_status(Status::NotUser);
        }
        if has(self.held, r) {
            return self.with_status(Status::Access);
        }
        self.level = at(&plan.ceiling, r as usize, 0).max(self.level);
        self.held = with(self.held, r);
        self.resource = self.resource.push(r as u8);
        self.holder = self.holder.push(self.runner);
        self.raised = self.raised.push(self.level);
        self.with_status(Status::Done)
    }

    pub fn release(mut self, config: &Config, plan: &Plan, r: u32) -> Step
        ensures { (x : Arrays) → view_step result x
            ≡ release config.now.resources plan.now.priority (view_with self x) r }
    {
        if self.no_caller() {
            return self.with_status(Status::CallLevel);
        }
        if config.resources as u32 <= r {
            return self.with_status(Status::NoSuch);
        }
        if !self.is_latest(r) {
            return self.with_status(Status::NoFunction);
        }
        let core = Core {
            level: self.level_without(plan),
            ..self.core()
        };
        self.held = without(self.held, r);
        self.resource = self.resource.pop();
        self.holder = self.holder.pop();
        self.raised = self.raised.pop();
        self.settled(core, plan)
    }

    // Whether the latest slot belongs to the runner and has this resource.
    fn is_latest(self, r: u32) -> bool
        ensures { result ≡ eqb (top_row self.holder) self.runner && eqb (top_row self.resource) r }
    {
        self.holder.top() == self.runner && self.resource.top() as u32 == r
    }

    // The level of the runner without its latest slot: that of the slot below if it is its own, else its own priority.
    fn level_without(self, plan: &Plan) -> u8
        ensures { result ≡ cond (eqb (second_row self.holder) self.runner) (second_row self.raised)
            (get_or plan.now.priority self.runner 0) }
    {
        let own = at(&plan.priority, self.runner as usize, 0);
        select_unpredictable(
            self.holder.second() == self.runner,
            self.raised.second(),
            own,
        )
    }
}
