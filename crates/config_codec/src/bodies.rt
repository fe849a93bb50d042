// The bodies that there are, by their kinds: which are tasks, and which of these are time-triggered.
ghost use Rattle.std.specs.Prelude.{◌≤◌};

use config::{ISR, TIME_TRIGGERED};

// The first `count` of `kind`.
#[derive(Clone, Copy)]
pub struct Bodies {
    pub count: u8,
    pub kind: [u8; 32],
    ghost few: { count ≤ 32 },
}

impl Bodies {
    ghost use Rattle.std.specs.Prelude.{◌≡◌, ◌-◌, ◌^◌, take};
    ghost use Rattle.config.specs.Meaning.{is_task, is_timed};
    ghost use Rattle.config.specs.Draft.{some_timed, timed_in};
    ghost use Rattle.config_codec.specs.Entry.{bodies_of};

    // The mask of all of them.
    pub fn mask(self) -> u32
        ensures { result ≡ 2 ^ self.count - 1 }
    {
        ((1u64 << self.count) - 1) as u32
    }

    // Whether `v` is the number of a task.
    pub fn is_task(self, v: u32) -> bool
        ensures { result ≡ is_task (bodies_of self.count self.kind) v }
    {
        v < u32::from(self.count) && self.kind[v as usize] != ISR
    }

    // Whether `v` is the number of a time-triggered task.
    pub fn is_timed(self, v: u32) -> bool
        ensures { result ≡ is_timed (bodies_of self.count self.kind) v }
    {
        v < u32::from(self.count) && self.kind[v as usize] == TIME_TRIGGERED
    }

    // Whether one of the tasks is time-triggered.
    pub fn some_timed(self, tasks: &[u8]) -> bool
        ensures { result ≡ some_timed (bodies_of self.count self.kind) tasks.now }
    {
        tasks.iter().any(|task| self.is_timed(u32::from(*task)))
    }

    // Whether a mask has the bit of one that is time-triggered. Where there is none its bits need no look.
    pub fn timed_in(self, mask: u32) -> bool
        ensures { result ≡ timed_in mask (take self.count self.kind) }
    {
        if !self.kind.contains(&TIME_TRIGGERED) {
            return false;
        }
        let mut rest = mask;
        for kind in &self.kind[..self.count as usize] {
            if *kind == TIME_TRIGGERED && rest % 2 == 1 {
                return true;
            }
            rest /= 2;
        }
        false
    }
}
