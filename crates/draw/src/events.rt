// One drawn event: its code, then its arguments, each one more value of the generator.
ghost use Rattle.std.specs.Prelude.{◌≡◌, ◌≤◌};
ghost use Rattle.drawing.specs.Drawing.{first_sort, second_sort, draw_below, draw_whole, draw_argument, with_arguments, draw_event};
ghost use Rattle.draw.specs.Drawable.{Drawable};

use crate::generator::next;
use crate::weights::pick;
use drawing::{Argument, Drawn, Sort};
use event::Event;

// What is drawn by: the weights and their sum, and the limits.
#[derive(Clone, Copy)]
pub struct Chances {
    pub weights: [u16; 12],
    pub limits: [u16; 4],
    pub sum: u32,
    ghost drawable: { Drawable weights sum limits },
}

impl Chances {
    // The event drawn after `value`.
    #[tactic(auto, unfolding(drawing::specs::Drawing::draw_event))]
    pub fn draw_event(&self, value: u32) -> Drawn
        ensures { result ≡ draw_event self.now.weights self.now.limits value }
    {
        let picking = next(value);
        let code = pick(&self.weights, picking % self.sum);
        self.draw_arguments(code, picking)
    }

    // The event of a code, with its arguments drawn after `value`.
    #[tactic(auto, unfolding(drawing::specs::Drawing::with_arguments))]
    fn draw_arguments(&self, code: u8, value: u32) -> Drawn
        ensures { result ≡ with_arguments self.now.limits code value }
    {
        let (first_sort, second_sort) = sorts(code);
        let first = self.draw_argument(first_sort, value);
        let second = self.draw_argument(second_sort, first.value);
        Drawn {
            event: Event {
                code,
                first: first.number,
                second: second.number,
            },
            value: second.value,
        }
    }

    // An argument of a sort, drawn after `value`; one that the event lacks is not drawn.
    #[tactic(auto, unfolding(drawing::specs::Drawing::draw_argument))]
    fn draw_argument(&self, sort: Sort, value: u32) -> Argument
        ensures { result ≡ draw_argument self.now.limits sort value }
    {
        match sort {
            Sort::Lacking => Argument { number: 0, value },
            Sort::Body => draw_below(self.limits[0], value),
            Sort::Resource => draw_below(self.limits[1], value),
            Sort::Table => draw_below(self.limits[2], value),
            Sort::Delay => draw_below(self.limits[3], value),
            Sort::Mask => draw_whole(value),
        }
    }
}

// An argument below its limit. A mask has none, so that one function of both would take an Option and be no plainer.
fn draw_below(limit: u16, value: u32) -> Argument
    requires { 1 ≤ limit }
    ensures { result ≡ draw_below limit value }
{
    let drawn = next(value);
    Argument {
        number: drawn % u32::from(limit),
        value: drawn,
    }
}

// A mask.
fn draw_whole(value: u32) -> Argument
    ensures { result ≡ draw_whole value }
{
    let drawn = next(value);
    Argument {
        number: drawn,
        value: drawn,
    }
}

// What the arguments of a code are the numbers of. A `match` over the codes is a form that document 01 names.
#[tactic(auto, unfolding(drawing::specs::Drawing::first_sort, drawing::specs::Drawing::second_sort))]
fn sorts(code: u8) -> (Sort, Sort)
    ensures { result ≡ (first_sort code, second_sort code) }
{
    match code {
        1 => (Sort::Body, Sort::Lacking), // Activate
        2 => (Sort::Lacking, Sort::Lacking), // Finish
        3 => (Sort::Body, Sort::Lacking), // Chain
        4 => (Sort::Resource, Sort::Lacking), // Get
        5 => (Sort::Resource, Sort::Lacking), // Release
        6 => (Sort::Lacking, Sort::Lacking), // Tick
        7 => (Sort::Body, Sort::Lacking), // Line
        8 => (Sort::Table, Sort::Delay), // Start
        9 => (Sort::Table, Sort::Lacking), // Stop
        10 => (Sort::Mask, Sort::Lacking), // Wait
        11 => (Sort::Body, Sort::Mask), // Set
        12 => (Sort::Mask, Sort::Lacking), // Clear
        0 | 13..=255 => (Sort::Lacking, Sort::Lacking),
    }
}
