// The fresh start, and a model in which nobody is ready.
ghost use Rattle.std.specs.Prelude.{◌≡◌};
ghost use Rattle.machine.specs.Machine.{unstarted, fresh_model};
ghost use Rattle.model.specs.View.{model_of};

use crate::{Core, Model, Registers};
use cells::{NO_RANK, OFF};
use plan::Plan;
use stack::Row;

impl Model {
    // Nobody is ready, all losses are 0, tables stopped.
    pub fn idle() -> Model
        ensures { result ≡ model_of (unstarted 0) }
    {
        let registers = Registers {
            request: 0,
            started: 0,
            aside: 0,
            held: 0,
            runner: NO_RANK,
            level: 0,
            resource: Row::empty(),
            holder: Row::empty(),
            raised: Row::empty(),
            turning: false,
            cleared: 0,
            triggered: Row::empty(),
        };
        Model {
            registers,
            counter: [0u16; 64],
            on: [OFF; 64],
            losses: [0u16; 32],
            bits: [0u32; 32],
            waited: [0u32; 32],
        }
    }

    // Autostart tasks are ready, the best one begins, all losses are 0, tables stopped.
    pub fn fresh(plan: &Plan) -> Model
        ensures { result ≡ model_of (fresh_model plan.now) }
    {
        let idle = Model::idle();
        let core = Core {
            request: plan.autostart,
            ..idle.registers.core()
        };
        let step = idle.registers.settled(core, plan);
        Model {
            registers: step.registers,
            ..idle
        }
    }
}
