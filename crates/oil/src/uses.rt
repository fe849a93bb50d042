// The second walk over a text: refusal 64, class by class.
ghost use Rattle.std.specs.Prelude.{◌≡◌};
ghost use Rattle.oil_grammar.specs.Automaton.{fresh};
ghost use Rattle.oil_grammar.specs.Walk.{unborne};
ghost use Rattle.oil.specs.Answer.{as_uses};
ghost use Rattle.oil.specs.Tokens.{First};
ghost use Rattle.oil.specs.Names.{unborne_no, missing_at};

use crate::automaton::uses_resource;
use crate::by_class::first_by_class;
use crate::hashing::Class;
use crate::names::{FEW, Name, Names, ROOM};
use crate::next::token_start;
use crate::token_walk::TokenWalk;
use number::{Refusal, Refused};

// The first of the first `bound` tokens that is a use, of the class, that no RESOURCE among the first `tokens` tokens bears.
fn first_missing(text: &[u8], tokens: usize, bound: usize, class: Class) -> Option<usize>
    ensures { First bound (missing_at text.now tokens class) result }
{
    if tokens <= FEW {
        let mut room = [Name::NONE; FEW];
        return missing_in(text, tokens, bound, class, &mut room);
    }
    let mut room = [Name::NONE; ROOM];
    missing_in(text, tokens, bound, class, &mut room)
}

// The same with a room for the names.
fn missing_in<'a, 'b>(
    text: &'a [u8],
    tokens: usize,
    bound: usize,
    class: Class,
    room: &'b mut [Name<'a>],
) -> Option<usize>
    ensures { First bound (missing_at text.now tokens class) result }
{
    let mut names = Names::new(text, true, class, room);
    names.gather(tokens);
    TokenWalk::new(text, bound).position(|step| uses_resource(step.progress)
        && names.lacks(tokens, step.spelling))
}

// The first of the first `tokens` tokens that is a use that no RESOURCE bears.
fn first_unborne(text: &[u8], tokens: usize) -> Option<usize>
    ensures { First tokens (unborne_no text.now tokens) result }
{
    first_by_class(text, tokens, |bound, class| {
        first_missing(text, tokens, bound, class)
    })
}

// Whether a RESOURCE bears each use among the first `tokens` tokens; if not, the first that none bears.
pub fn unborne(text: &[u8], tokens: usize) -> Result<(), Refused>
    ensures { as_uses tokens result ≡ unborne tokens text.now 0 fresh tokens }
{
    match first_unborne(text, tokens) {
        Some(u) => Err(Refused {
            refusal: Refusal::NoResource,
            place: token_start(text, u),
        }),
        None => Ok(()),
    }
}
