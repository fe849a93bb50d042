// Whether an object among the first tokens of a text bears a name.
ghost use Rattle.std.specs.Prelude.{◌≡◌};
ghost use Rattle.oil_grammar.specs.Automaton.{fresh};
ghost use Rattle.oil_grammar.specs.Walk.{bears, borne};
ghost use Rattle.oil.specs.Answer.{as_progress};

use crate::automaton::{Progress, names_object};
use crate::token::Sort;
use crate::token_walk::TokenWalk;

// Whether a name is wanted that an object, or only a RESOURCE, will bear. The flag is that of the definitions `bears` and
// `borne` of oil_grammar, which may not change.
#[tactic(auto, unfolding(oil_grammar::specs::Walk::bears))]
pub fn bears(resource: bool, s: Progress) -> bool
    ensures { result ≡ bears resource (as_progress s) }
{
    names_object(s) && (!resource || s.kind == Some(Sort::Resource))
}

// Whether one of the first `count` tokens is such a name, and is spelled so.
pub fn borne(text: &[u8], count: usize, resource: bool, name: &[u8]) -> bool
    ensures { result ≡ borne count text.now 0 fresh resource name.now }
{
    TokenWalk::new(text, count).any(|step| bears(resource, step.progress) && step.spelling == name)
}
