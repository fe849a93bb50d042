// The tokens of a text in order, each with how far the text has come before it.
ghost use Rattle.std.specs.Prelude.{◌≡◌, ◌≤◌, length};
ghost use Rattle.oil_grammar.specs.Next.{spelling};
ghost use Rattle.oil_grammar.specs.Automaton.{fresh};
ghost use Rattle.oil.specs.Answer.{as_token};
ghost use Rattle.oil.specs.Tokens.{tokens_from};

use crate::automaton::{Progress, after, fresh};
use crate::next::next_token;
use crate::token::Token;
use std::marker::Model;

// The bytes of a token.
fn spelling(text: &[u8], token: Token) -> &[u8]
    requires { (token.start ≤ token.end) × (token.end ≤ length text.now) }
    ensures { result.now ≡ spelling text.now (as_token token) }
{
    let start = token.start;
    let end = token.end;
    &text[start..end]
}

// A token, its bytes, and how far the text has come before it.
#[derive(Clone, Copy)]
pub struct Step<'a> {
    pub progress: Progress,
    pub token: Token,
    pub spelling: &'a [u8],
}

// The next tokens of a text, `left` of them.
#[derive(Drop)]
pub struct TokenWalk<'a> {
    text: &'a [u8],
    at: usize,
    progress: Progress,
    left: usize,
}

impl<'a> Model for TokenWalk<'a> {
    ghost use Rattle.std.specs.Prelude.{ℕ, List, ◌≤◌, length};
    ghost use Rattle.oil_grammar.specs.Records as R;
    ghost use Rattle.oil.specs.Answer.{as_progress};
    ghost use Rattle.oil.specs.Tokens.{tokens_from};

    ghost Value = { List (R.Progress × R.Token × List ℕ) };

    ghost view = { λ w. tokens_from w.left w.text.now w.at (as_progress w.progress) };

    ghost invariant = { λ w. w.at ≤ length w.text.now };
}

impl<'a> TokenWalk<'a> {
    // The first `count` tokens.
    pub fn new(text: &'a [u8], count: usize) -> Self
        ensures { result ≡ tokens_from count text.now 0 fresh }
    {
        TokenWalk {
            text,
            at: 0,
            progress: fresh(),
            left: count,
        }
    }
}

impl<'a> Iterator for TokenWalk<'a> {
    ghost use Rattle.std.specs.Iterator.{YieldsFirstBy, item_count};
    ghost use Rattle.oil.specs.Tokens.{step_of};

    type Item = Step<'a>;

    ghost next_gives = { YieldsFirstBy step_of (λ steps. steps) };

    ghost remaining = { item_count (λ steps. steps) };

    fn next(&mut self) -> Option<Step<'a>> {
        self.left = self.left.checked_sub(1)?;
        let text = self.text;
        let progress = self.progress;
        let token = next_token(text, self.at);
        self.progress = after(progress, token.sort);
        self.at = token.end;
        Some(Step {
            progress,
            token,
            spelling: spelling(text, token),
        })
    }
}
