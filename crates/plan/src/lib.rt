// The static tables that the machine's events look up: bodies by rank, ranks by body, and what is fixed of resources,
// tables and entries. What they are is defined in specs/; planner fills them.
//
// A rank is a body's number in the order of priorities, 0 the lowest; time-triggered tasks stand above all others.
#![tactic(auto)]

#[derive(Clone, Copy)]
pub struct Plan {
    // By body its rank; the same where it is a task that a call may activate, and where it is an ISR, else NO_RANK.
    pub rank: [u8; 32],
    pub callable: [u8; 32],
    pub line: [u8; 32],
    // By rank the level that a request is compared with, its priority or a time-triggered task's trigger level,
    // and the body's number.
    pub priority: [u8; 32],
    pub body: [u8; 32],
    // The words of the ranks that are ISRs, of those that are extended tasks, and of those of autostart tasks.
    pub isrs: u32,
    pub extended: u32,
    pub autostart: u32,
    // By resource its ceiling, and the word of the ranks of its declared users.
    pub ceiling: [u8; 16],
    pub users: [u32; 16],
    // By table its first entry.
    pub first: [u8; 8],
    // By entry its cell's compare value and the rank of its task.
    pub compare: [u16; 64],
    pub entry: [u8; 64],
    // How many entries there are in all.
    pub count: usize,
}
