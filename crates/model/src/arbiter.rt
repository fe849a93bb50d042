// Who runs: of those that wait to begin or go on by their priority the highest wins, and is dispatched only strictly
// above the level.
ghost use Rattle.std.specs.Prelude.{◌≡◌, true, ◌&&◌, ltb, eqb};
ghost use Rattle.config.specs.Meaning.{execution_level, trigger_level};
ghost use Rattle.word.specs.Word.{with, without};
ghost use Rattle.stack.specs.Stack.{push_row};
ghost use Rattle.machine.specs.Model.{with_core, with_request, with_triggered, done_with};
ghost use Rattle.machine.specs.Arbiter.{arbitrated, settled, left_with, leaving, triggering, returning};
ghost use Rattle.model.specs.View.{Arrays, core, view_core, view_picked, view_with, view_step};

use crate::{Core, EXECUTION_LEVEL, Picked, Registers, Status, Step};
use cells::{NO_RANK, at};
use config::TRIGGER_LEVEL;
use plan::Plan;
use std::hint::select_unpredictable;
use word::{has, union, winner, with, without};

impl Registers {
    pub(crate) fn core(self) -> Core
        ensures { (x : Arrays) → view_core result ≡ (view_with self x).core }
    {
        Core {
            request: self.request,
            started: self.started,
            aside: self.aside,
            runner: self.runner,
            level: self.level,
        }
    }

    // The model after arbitration, with this core.
    pub fn settled(self, core: Core, plan: &Plan) -> Step
        ensures { (x : Arrays) → view_step result x
            ≡ settled plan.now.priority (with_core (view_with self x) (view_core core)) }
    {
        self.seated(arbitrated(core, plan))
    }

    // The core that a runner leaves, with these words of who has begun: whoever took the latest resource that is held
    // takes its seat, or nobody does.
    pub(crate) fn left_with(self, started: u32, aside: u32) -> Core
        ensures { (x : Arrays) → view_core result ≡ left_with (view_with self x) started aside }
    {
        let runner = self.holder.top();
        let level = select_unpredictable(runner == NO_RANK, 0, self.raised.top());
        Core {
            request: self.request,
            started,
            aside,
            runner,
            level,
        }
    }

    // The model after arbitration, with these requests, once the runner has ended.
    pub fn ended(mut self, request: u32, plan: &Plan) -> Step
        ensures { (x : Arrays) → view_step result x
            ≡ settled plan.now.priority
            (with_core (leaving (view_with self x)) (with_request (leaving (view_with self x)).core request)) }
    {
        let rank = self.runner as u32;
        let left = self.left_with(without(self.started, rank), self.aside);
        self.cleared = with(self.cleared, rank);
        self.settled(Core { request, ..left }, plan)
    }

    // The same once a time-triggered task has ended: the one that was started before it goes on, and where there is
    // none, the seat is left as by any other runner.
    pub fn returned(mut self, plan: &Plan) -> Step
        ensures { (x : Arrays) → view_step result x
            ≡ settled plan.now.priority (returning (view_with self x)) }
    {
        let rank = self.runner as u32;
        let left = self.left_with(self.started, without(self.aside, rank));
        let earlier = self.triggered.second();
        let alone = earlier == NO_RANK;
        let core = Core {
            runner: select_unpredictable(alone, left.runner, earlier),
            level: select_unpredictable(alone, left.level, EXECUTION_LEVEL),
            ..left
        };
        self.cleared = with(self.cleared, rank);
        self.triggered = self.triggered.pop();
        self.settled(core, plan)
    }

    // The model after a Tick and arbitration, with these requests: a Tick alone may start a time-triggered task, which
    // is whom arbitration picked where the level rose to the trigger level.
    pub fn triggering(self, request: u32, plan: &Plan) -> Step
        ensures { (x : Arrays) → view_step result x
            ≡ triggering plan.now.priority
            (with_core (view_with self x) (with_request (view_with self x).core request)) }
    {
        let core = Core {
            request,
            ..self.core()
        };
        let picked = arbitrated(core, plan);
        if is_triggered(self.level, picked.core.level) {
            return self.launched(request, picked.core.runner);
        }
        self.seated(picked)
    }

    // The model in which the time-triggered task of this rank begins, with these requests.
    pub fn launched(self, request: u32, rank: u8) -> Step
        ensures { (x : Arrays) → view_step result x
            ≡ done_with (with_triggered (view_with self x)
            (core (without request rank) self.started (with self.aside rank) rank execution_level)
            self.cleared (push_row self.triggered rank)) true }
    {
        let registers = Registers {
            request: without(request, rank as u32),
            aside: with(self.aside, rank as u32),
            runner: rank,
            level: EXECUTION_LEVEL,
            triggered: self.triggered.push(rank),
            ..self
        };
        Step {
            registers,
            status: Status::Done,
            begun: true,
        }
    }

    // The model with whom arbitration picked.
    pub fn seated(self, picked: Picked) -> Step
        ensures { (x : Arrays) → view_step result x
            ≡ done_with (with_core (view_with self x) (view_core picked.core)) picked.begun }
    {
        let registers = Registers {
            request: picked.core.request,
            started: picked.core.started,
            aside: picked.core.aside,
            runner: picked.core.runner,
            level: picked.core.level,
            ..self
        };
        Step {
            registers,
            status: Status::Done,
            begun: picked.begun,
        }
    }
}

// Who runs after arbitration. Of the requests the one by which a body begins is used up; where it is resumed, a second
// one waits on.
pub fn arbitrated(core: Core, plan: &Plan) -> Picked
    ensures { view_picked result ≡ arbitrated plan.now.priority (view_core core) }
{
    let rank = winner(union(core.request, core.started));
    let own = at(&plan.priority, rank as usize, 0);
    if own <= core.level {
        return Picked { core, begun: false };
    }
    let begun = !has(core.started, rank);
    let core = Core {
        request: select_unpredictable(begun, without(core.request, rank), core.request),
        started: with(core.started, rank),
        runner: rank as u8,
        level: own,
        ..core
    };
    Picked { core, begun }
}

// Whether the body that arbitration picked is a time-triggered task that it dispatched: the level rises only by a
// dispatch.
pub fn is_triggered(level: u8, next: u8) -> bool
    ensures { result ≡ ltb level next && eqb next trigger_level }
{
    level < next && next == TRIGGER_LEVEL
}
