// The ceilings of resources, and their users by rank.
ghost use Rattle.std.specs.Prelude.{◌≡◌, ◌/◌, ◌%◌, ◌^◌, take, get_or, replicate};
ghost use Rattle.config.specs.Value.{max_resources};
ghost use Rattle.config.specs.Meaning.{greatest_in};
ghost use Rattle.plan.specs.Stores.{listed};
ghost use Rattle.plan.specs.Words.{marked};
ghost use Rattle.plan.specs.Plan.{resource_count};

use crate::bodies::Bodies;
use config::{Config, MAX_RESOURCES};

// A resource's ceiling, and its users by rank.
#[derive(Clone, Copy)]
struct Usage {
    ceiling: u8,
    users: u32,
}

// The ceilings and the words of users, each by resource.
#[derive(Clone, Copy)]
pub struct ByResource {
    pub ceiling: [u8; 16],
    pub users: [u32; 16],
}

impl Bodies {
    pub fn by_resource(&self, config: &Config) -> ByResource
        ensures ceilings { result.ceiling
            ≡ listed (λ i. greatest_in (get_or config.now.users i 0) (take self.now.count self.now.priority))
            (resource_count config.now) (replicate max_resources 0) }
        ensures users { result.users
            ≡ listed (λ i. marked (λ b. get_or self.now.rank b 0) (λ b. get_or config.now.users i 0 / 2 ^ b % 2) 1 self.now.count)
            (resource_count config.now) (replicate max_resources 0) }
    {
        let resources = (config.resources as usize).min(MAX_RESOURCES);
        let mut ceiling = [0u8; 16];
        let mut users = [0u32; 16];
        for r in 0..resources {
            let usage = self.usage_of(config.users[r]);
            ceiling[r] = usage.ceiling;
            users[r] = usage.users;
        }
        ByResource { ceiling, users }
    }

    // Of a mask of users by body number, the greatest of their priorities and the word of their ranks. Who uses a
    // resource is no pattern that the processor could foresee, so the loop goes over the mask's set bits and not over an
    // index.
    #[tactic(auto, using(crate::proofs::Usage::set_low))]
    fn usage_of(&self, users: u32) -> Usage
        ensures ceiling { result.ceiling ≡ greatest_in users (take self.now.count self.now.priority) }
        ensures users { result.users
            ≡ marked (λ b. get_or self.now.rank b 0) (λ b. users / 2 ^ b % 2) 1 self.now.count }
    {
        let mut most: u8 = 0;
        let mut w: u32 = 0;
        let mut m = users;
        let mut b: usize = 0;
        while m != 0 {
            let zeros = m.trailing_zeros();
            b += zeros as usize;
            if b < self.count {
                most = most.max(self.priority[b]);
                w = word::with(w, self.rank[b] as u32);
            }
            m = (m >> zeros) / 2;
            b += 1;
        }
        Usage {
            ceiling: most,
            users: w,
        }
    }
}
