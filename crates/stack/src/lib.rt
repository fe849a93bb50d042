// A stack of bytes kept in 64-bit words, its top in the lowest byte of the first word.
//
// A push and a pop shift the words, so no index is needed and the compiler keeps the stack in registers. Past the
// bottom lies 255: a pop brings it in, and a push onto a full stack drops the byte at the bottom. The laws are in
// proofs/Theorems.antt.
#![tactic(auto)]

ghost use Rattle.std.specs.Prelude.{◌≡◌};
ghost use Rattle.stack.specs.Stack.{push_word, pop_word, first_byte, last_byte, empty_row, top_row, second_row, push_row, pop_row};

// What lies past the bottom. A number and no Option: the definitions (`pop_row`) bring it in.
pub const NO_BYTE: u8 = u8::MAX;

// Eight times NO_BYTE.
const EMPTY: u64 = u64::MAX;

// 16 bytes.
#[derive(Clone, Copy)]
pub struct Row {
    // The eight bytes nearest the top.
    pub near: u64,
    pub far: u64,
}

// The word with x below its seven lowest bytes; its highest one drops out.
fn push_word(w: u64, x: u8) -> u64
    ensures { result ≡ push_word w x }
{
    (w << 8) | x as u64
}

// The word without its lowest byte, y above the rest.
fn pop_word(w: u64, y: u8) -> u64
    ensures { result ≡ pop_word w y }
{
    (w >> 8) | (y as u64) << 56
}

fn first_byte(w: u64) -> u8
    ensures { result ≡ first_byte w }
{
    (w % 256) as u8
}

fn last_byte(w: u64) -> u8
    ensures { result ≡ last_byte w }
{
    (w >> 56) as u8
}

impl Row {
    #[tactic(auto, unfolding(crate::specs::Stack::empty_row))]
    pub fn empty() -> Row
        ensures { result ≡ empty_row }
    {
        Row {
            near: EMPTY,
            far: EMPTY,
        }
    }

    #[tactic(auto, unfolding(crate::specs::Stack::top_row))]
    pub fn top(self) -> u8
        ensures { result ≡ top_row self }
    {
        first_byte(self.near)
    }

    // The byte under the top.
    #[tactic(auto, unfolding(crate::specs::Stack::second_row))]
    pub fn second(self) -> u8
        ensures { result ≡ second_row self }
    {
        first_byte(self.near >> 8)
    }

    #[tactic(auto, unfolding(crate::specs::Stack::push_row))]
    pub fn push(self, x: u8) -> Row
        ensures { result ≡ push_row self x }
    {
        let near = push_word(self.near, x);
        let far = push_word(self.far, last_byte(self.near));
        Row { near, far }
    }

    // The row without its top.
    #[tactic(auto, unfolding(crate::specs::Stack::pop_row))]
    pub fn pop(self) -> Row
        ensures { result ≡ pop_row self }
    {
        let near = pop_word(self.near, first_byte(self.far));
        let far = pop_word(self.far, NO_BYTE);
        Row { near, far }
    }
}
