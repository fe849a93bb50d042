// What a draw gives, as values. How it is drawn is defined in specs/; no code runs here.
#![tactic(auto)]

use event::Event;

// What an argument is the number of. A mask of event bits is drawn whole; Lacking: the event has no such argument.
#[derive(Clone, Copy)]
pub enum Sort {
    Lacking,
    Body,
    Resource,
    Table,
    Delay,
    Mask,
}

// A drawn argument, and the generator's value after it.
#[derive(Clone, Copy)]
pub struct Argument {
    pub number: u32,
    pub value: u32,
}

// A drawn event, and the generator's value after it.
#[derive(Clone, Copy)]
pub struct Drawn {
    pub event: Event,
    pub value: u32,
}
