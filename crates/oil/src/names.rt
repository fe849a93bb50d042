// The names of a text's objects, a class at a time: those of a class are kept, so that none has to be looked for in the
// text. The first name that an earlier object has.
ghost use Rattle.std.specs.Prelude.{◌≡◌, ◌≤◌, false, length};
ghost use Rattle.oil.specs.Tokens.{First};
ghost use Rattle.oil.specs.Names.{repeated_at, twice_at};

use crate::borne::{bears, borne};
use crate::by_class::first_by_class;
use crate::hashing::Class;
use crate::token_walk::{Step, TokenWalk};

// How many names of a class are kept at most.
pub const ROOM: usize = 2048;

// A text of no more tokens gets this room, which suffices for it: to fill the other takes most of the time of a small text.
pub const FEW: usize = 128;

// A name, and its hash at the key of its class.
#[derive(Clone, Copy)]
pub struct Name<'a> {
    hash: u64,
    bytes: &'a [u8],
}

impl<'a> Name<'a> {
    // In the place of a name that is not kept yet.
    pub const NONE: Name<'static> = Name {
        hash: 0,
        bytes: &[],
    };
}

// The names of a class that a text's objects bear, or its RESOURCE objects alone: as many as there is room for.
// The room is lent and has a count beside it: there is no heap, and a struct that holds its 48 KB is built twice on the stack.
#[derive(Drop)]
pub struct Names<'a, 'b> {
    text: &'a [u8],
    resource: bool,
    class: Class,
    room: &'b mut [Name<'a>],
    count: usize,
    ghost few: { count ≤ length room.now },
}

impl<'a, 'b> Names<'a, 'b> {
    ghost use Rattle.std.specs.Prelude.{◌≡◌, ◌+◌, ◌==◌, ◌&&◌, not, true};
    ghost use Rattle.std.specs.List.{list_any};
    ghost use Rattle.std.specs.Str.{bytes_eq};
    ghost use Rattle.oil.specs.declared.names.Name.{Name};
    ghost use Rattle.oil_grammar.specs.Automaton.{fresh};
    ghost use Rattle.oil_grammar.specs.Walk.{borne};
    ghost use Rattle.oil.specs.Answer.{as_progress};
    ghost use Rattle.oil.specs.Hash.{hashed};
    ghost use Rattle.oil.specs.Tokens.{progress_after, First};
    ghost use Rattle.oil.specs.Names.{in_class, spelled, twice_at};
    ghost use Rattle.oil.specs.Gathered.{kept, Gathered, IsOf};

    // None yet.
    pub fn new(text: &'a [u8], resource: bool, class: Class, room: &'b mut [Name<'a>]) -> Self
        ensures of { IsOf result text.now resource class }
        ensures none { Gathered result 0 }
    {
        Names {
            text,
            resource,
            class,
            room,
            count: 0,
        }
    }

    // Whether a name of this hash and spelling is kept.
    fn keeps(&self, name: &[u8], hash: u64) -> bool
        ensures { result ≡ list_any (λ (n : Name). (n.hash == hash) && bytes_eq n.bytes.now name.now) (kept self.now) }
    {
        self.room[..self.count]
            .iter()
            .any(|n| n.hash == hash && n.bytes == name)
    }

    // Whether an object among the first `tokens` tokens bears a name of the class: it is kept, or, where there was no
    // room, stands in the text.
    fn knows(&self, tokens: usize, name: &[u8], hash: u64) -> bool
        requires gathered { Gathered self.now tokens }
        requires hash_told { (in_class self.now.class name.now ≡ true) × (hash ≡ hashed self.now.class.key 0 name.now) }
        ensures { result ≡ borne tokens self.now.text.now 0 fresh self.now.resource name.now }
    {
        if self.keeps(name, hash) {
            return true;
        }
        self.count == self.room.len() && borne(self.text, tokens, self.resource, name)
    }

    // Whether a name is of the class, and no object among the first `tokens` tokens bears it.
    pub fn lacks(&self, tokens: usize, name: &[u8]) -> bool
        requires { Gathered self.now tokens }
        ensures { result ≡ in_class self.now.class name.now
            && not (borne tokens self.now.text.now 0 fresh self.now.resource name.now) }
    {
        match self.class.hash(name) {
            Some(hash) => !self.knows(tokens, name, hash),
            None => false,
        }
    }

    // Takes in the token number `i`. Whether it is a name of the class that an object before it bears.
    fn take_in(&mut self, i: usize, step: Step<'a>) -> bool
        requires gathered { Gathered self.old i }
        requires reached { (as_progress step.progress ≡ progress_after self.old.text.now i)
            × (step.spelling.now ≡ spelled self.old.text.now i) }
        ensures of { IsOf self.new self.old.text.now self.old.resource self.old.class }
        ensures gathered { Gathered self.new (i + 1) }
        ensures twice { result ≡ twice_at self.old.text.now self.old.resource self.old.class i }
    {
        if !bears(self.resource, step.progress) {
            return false;
        }
        let name = step.spelling;
        let Some(hash) = self.class.hash(name) else {
            return false;
        };
        if self.knows(i, name, hash) {
            return true;
        }
        if self.count < self.room.len() {
            self.room[self.count] = Name { hash, bytes: name };
            self.count += 1;
        }
        false
    }

    // Takes in the first `tokens` tokens. The first that is a name of the class that an object before it bears.
    pub fn gather(&mut self, tokens: usize) -> Option<usize>
        requires { Gathered self.old 0 }
        ensures of { IsOf self.new self.old.text.now self.old.resource self.old.class }
        ensures gathered { Gathered self.new tokens }
        ensures twice { First tokens (twice_at self.old.text.now self.old.resource self.old.class) result }
    {
        let mut first = None;
        for (i, step) in TokenWalk::new(self.text, tokens).enumerate() {
            if self.take_in(i, step) {
                first = first.or(Some(i));
            }
        }
        first
    }
}

// The first of the first `tokens` tokens that is a name of the class and an earlier object's.
fn first_twice(text: &[u8], tokens: usize, class: Class) -> Option<usize>
    ensures { First tokens (twice_at text.now false class) result }
{
    if tokens <= FEW {
        let mut room = [Name::NONE; FEW];
        return Names::new(text, false, class, &mut room).gather(tokens);
    }
    let mut room = [Name::NONE; ROOM];
    Names::new(text, false, class, &mut room).gather(tokens)
}

// The first of the first `tokens` tokens that is an earlier object's name.
pub fn first_repeated(text: &[u8], tokens: usize) -> Option<usize>
    ensures { First tokens (repeated_at text.now false) result }
{
    first_by_class(text, tokens, |bound, class| first_twice(text, bound, class))
}
