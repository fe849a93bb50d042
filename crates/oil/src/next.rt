// The next token of a text, from a place on. A comment ends with its line, or with the first */.
ghost use Rattle.std.specs.Prelude.{◌≡◌, ℕ, ◌+◌, ◌≤◌, ◌<◌, Bool, length, unwrap_or, IfSome};
ghost use Rattle.oil_grammar.specs.Byte.{span};
ghost use Rattle.oil_grammar.specs.Token.{spelled_sort};
ghost use Rattle.oil_grammar.specs.Next.{closing, comment, blank, token_of, token_at, next_token};
ghost use Rattle.oil.specs.Answer.{number_of, as_token};
ghost use Rattle.oil.specs.Tokens.{token};

use crate::bytes::{is_digit, is_letter, is_line_byte, is_name_byte, is_space, sign};
use crate::token::{Sort, Token};

// How many bytes from the first on are of a class.
fn span<F: Fn(u8) -> bool>(rest: &[u8], is_of: F) -> usize
    ghost class: { ℕ → Bool }
    requires callable { F.IsAlwaysCallable is_of }
    requires told { (b : ℕ) (r : Bool) → F.post is_of b r → r ≡ class b }
    ensures run { result ≡ span class rest.now }
    ensures inside { result ≤ length rest.now }
{
    for (i, &b) in rest.iter().enumerate() {
        if !is_of(b) {
            return i;
        }
    }
    rest.len()
}

// How many bytes there are up to and with the first */.
fn closing(rest: &[u8]) -> Option<usize>
    ensures bytes { unwrap_or result 0 ≡ closing rest.now }
    ensures some { IfSome result (λ n. (0 < n) × (n ≤ length rest.now)) }
{
    for end in 1..rest.len() {
        if rest[end - 1] == b'*' && rest[end] == b'/' {
            return Some(end + 1);
        }
    }
    None
}

// How many bytes the comment takes whose first slash stands before these, which is left out.
#[tactic(auto, unfolding(oil_grammar::specs::Next::comment))]
fn comment(rest: &[u8]) -> Option<usize>
    ensures bytes { unwrap_or result 0 ≡ comment rest.now }
    ensures some { IfSome result (λ n. (0 < n) × (n ≤ length rest.now + 1)) }
{
    let (first, after) = rest.split_first()?;
    match *first {
        b'/' => Some(span(after, is_line_byte) + 2),
        b'*' => Some(closing(after)? + 2),
        _ => None,
    }
}

// How many bytes the space or comment takes that these begin with.
#[tactic(auto, unfolding(oil_grammar::specs::Next::blank))]
fn blank(rest: &[u8]) -> Option<usize>
    ensures bytes { unwrap_or result 0 ≡ blank rest.now }
    ensures some { IfSome result (λ n. (0 < n) × (n ≤ length rest.now)) }
{
    let (first, after) = rest.split_first()?;
    if is_space(*first) {
        return Some(1);
    }
    if *first == b'/' { comment(after) } else { None }
}

// The sort of what letters and digits spell: one of OIL's words, or a name.
#[tactic(auto, using(crate::proofs::Words::words))]
fn spelled_sort(token: &[u8]) -> Sort
    ensures { number_of result ≡ spelled_sort token.now }
{
    match token {
        b"TASK" => Sort::Task,
        b"ISR" => Sort::Isr,
        b"RESOURCE" => Sort::Resource,
        b"PRIORITY" => Sort::Priority,
        b"AUTOSTART" => Sort::Autostart,
        b"TRUE" => Sort::True,
        b"FALSE" => Sort::False,
        _ => Sort::Name,
    }
}

// The sort of the token that these bytes begin with, and how many it has.
fn first_token(rest: &[u8]) -> (Sort, usize)
    ensures token { (p : ℕ) → token_of (number_of result.0) p result.1 ≡ token_at p rest.now }
    ensures inside { result.1 ≤ length rest.now }
{
    let Some((first, after)) = rest.split_first() else {
        return (Sort::End, 0);
    };
    let first = *first;
    if is_letter(first) {
        let length = span(after, is_name_byte) + 1;
        return (spelled_sort(&rest[..length]), length);
    }
    if is_digit(first) {
        return (Sort::Number, span(after, is_digit) + 1);
    }
    match sign(first) {
        Some(sort) => (sort, 1),
        None => (Sort::Unreadable, 0),
    }
}

// The first token at or after `at`, past all spaces and comments.
pub fn next_token(text: &[u8], at: usize) -> Token
    requires { at ≤ length text.now }
    ensures { as_token result ≡ next_token text.now at }
{
    let mut start = at;
    // No range: each space or comment says itself how far it goes.
    while let Some(n) = blank(&text[start..]) {
        start += n;
    }
    let (sort, length) = first_token(&text[start..]);
    Token {
        sort,
        start,
        end: start + length,
    }
}

// Where the token number `n` begins.
pub fn token_start(text: &[u8], n: usize) -> usize
    ensures { result ≡ (token text.now n).start }
{
    let mut at = 0;
    for _ in 0..n {
        at = next_token(text, at).end;
    }
    next_token(text, at).start
}
