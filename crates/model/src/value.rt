// The model by value, one method for each event: the next model with its answer. An array that an event touches is
// taken out, lent to the method of the registers, and put back where it may have changed.
ghost use Rattle.std.specs.Prelude.{◌≡◌};
ghost use Rattle.config.specs.Meaning.{counts_lines};
ghost use Rattle.machine.specs.Events.{activate, finish, chain, get, release, tick, line, start, stop, wait, set_event, clear};
ghost use Rattle.model.specs.View.{arrays_of, view, view_step, view_outcome};

use crate::{Model, Outcome, Step};
use config::Config;
use plan::Plan;

impl Model {
    pub fn activate(self, plan: &Plan, t: u32) -> Outcome
        ensures { view_outcome result ≡ activate plan.now.callable plan.now.priority (view self) t }
    {
        self.stepped(self.registers.activate(plan, t))
    }

    pub fn finish(self, plan: &Plan) -> Outcome
        ensures { view_outcome result ≡ finish plan.now.priority (view self) }
    {
        self.stepped(self.registers.finish(plan))
    }

    pub fn chain(self, plan: &Plan, t: u32) -> Outcome
        ensures { view_outcome result
            ≡ chain plan.now.isrs plan.now.callable plan.now.priority (view self) t }
    {
        self.stepped(self.registers.chain(plan, t))
    }

    pub fn get(self, config: &Config, plan: &Plan, r: u32) -> Outcome
        ensures { view_outcome result
            ≡ get config.now.resources plan.now.users plan.now.ceiling (view self) r }
    {
        self.stepped(self.registers.get(config, plan, r))
    }

    pub fn release(self, config: &Config, plan: &Plan, r: u32) -> Outcome
        ensures { view_outcome result ≡ release config.now.resources plan.now.priority (view self) r }
    {
        self.stepped(self.registers.release(config, plan, r))
    }

    pub fn tick(self, plan: &Plan) -> Outcome
        ensures { view_outcome result
            ≡ tick plan.now.compare plan.now.entry plan.now.priority (view self) }
    {
        let mut counter = self.counter;
        let mut on = self.on;
        let mut losses = self.losses;
        let step = self
            .registers
            .tick(plan, &mut counter, &mut on, &mut losses);
        let next = Model {
            counter,
            on,
            losses,
            ..self
        };
        next.stepped(step)
    }

    pub fn line(self, config: &Config, plan: &Plan, i: u32) -> Outcome
        ensures { view_outcome result
            ≡ line (counts_lines config.now) plan.now.line plan.now.priority (view self) i }
    {
        let mut losses = self.losses;
        let step = self.registers.line(config, plan, i, &mut losses);
        let next = Model { losses, ..self };
        next.stepped(step)
    }

    pub fn start(self, config: &Config, plan: &Plan, t: u32, d: u32) -> Outcome
        ensures { view_outcome result
            ≡ start config.now.tables plan.now.first config.now.entries config.now.period config.now.offset
            (view self) t d }
    {
        let mut counter = self.counter;
        let mut on = self.on;
        let step = self
            .registers
            .start(config, plan, t, d, &mut counter, &mut on);
        let next = Model {
            counter,
            on,
            ..self
        };
        next.stepped(step)
    }

    pub fn stop(self, config: &Config, plan: &Plan, t: u32) -> Outcome
        ensures { view_outcome result
            ≡ stop config.now.tables plan.now.first config.now.entries (view self) t }
    {
        let mut counter = self.counter;
        let mut on = self.on;
        let step = self.registers.stop(config, plan, t, &mut counter, &mut on);
        let next = Model {
            counter,
            on,
            ..self
        };
        next.stepped(step)
    }

    pub fn wait(self, plan: &Plan, mask: u32) -> Outcome
        ensures { view_outcome result ≡ wait plan.now.extended plan.now.priority (view self) mask }
    {
        let bits = self.bits;
        let mut waited = self.waited;
        let step = self.registers.wait(plan, mask, &bits, &mut waited);
        let next = Model { waited, ..self };
        next.stepped(step)
    }

    pub fn set_event(self, plan: &Plan, t: u32, mask: u32) -> Outcome
        ensures { view_outcome result
            ≡ set_event plan.now.isrs plan.now.extended plan.now.rank plan.now.priority
            (view self) t mask }
    {
        let waited = self.waited;
        let mut bits = self.bits;
        let step = self.registers.set_event(plan, t, mask, &waited, &mut bits);
        let next = Model { bits, ..self };
        next.stepped(step)
    }

    pub fn clear(self, plan: &Plan, mask: u32) -> Outcome
        ensures { view_outcome result ≡ clear plan.now.extended (view self) mask }
    {
        let mut bits = self.bits;
        let step = self.registers.clear(plan, mask, &mut bits);
        let next = Model { bits, ..self };
        next.stepped(step)
    }

    // The model of these registers and its own arrays, with the answer.
    fn stepped(self, step: Step) -> Outcome
        ensures { view_outcome result ≡ view_step step (arrays_of self) }
    {
        let model = Model {
            registers: step.registers,
            ..self
        };
        Outcome {
            model,
            status: step.status,
            begun: step.begun,
        }
    }
}
