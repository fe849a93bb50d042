// The third walk over a text: its configuration. Bodies and resources are numbered as they stand.
ghost use Rattle.std.specs.Prelude.{◌≡◌, slice_set};
ghost use Rattle.config.specs.Value.{no_config};
ghost use Rattle.oil_grammar.specs.Token.{decimal};
ghost use Rattle.oil_grammar.specs.Meaning.{held, kind_of, empty, ended};
ghost use Rattle.oil_grammar.specs.Automaton.{fresh};
ghost use Rattle.oil_grammar.specs.Walk.{numbered, marked, mask, put};
ghost use Rattle.oil_grammar.specs.Reader.{filled};
ghost use Rattle.oil.specs.Answer.{sort_number, as_progress, number_of};

use crate::automaton::{Progress, uses_resource};
use crate::token::Sort;
use crate::token_walk::{Step, TokenWalk};
use config::Config;
use config_codec::no_config;
use oil_grammar::Want;

// No object yet, in a configuration of version 1.
fn empty() -> Config
    ensures { result ≡ empty }
{
    Config {
        version: 1,
        ..no_config()
    }
}

// The number of the next body after a token.
#[tactic(auto, unfolding(oil_grammar::specs::Walk::numbered_at))]
fn numbered(s: Progress, body: u8) -> u8
    ensures { result ≡ numbered (as_progress s) body }
{
    match s.want {
        Want::ObjectEnd if s.kind != Some(Sort::Resource) => body.saturating_add(1),
        _ => body,
    }
}

// The mask with `body` in it, if the token is a use of the resource of a name.
#[tactic(auto, using(crate::proofs::Words::same_pointwise), unfolding(oil_grammar::specs::Walk::marked))]
fn marked(step: Step, name: &[u8], body: u8, users: u32) -> u32
    ensures { result ≡ marked (as_progress step.entry.progress) step.entry.spelling.now name.now body users }
{
    if uses_resource(step.progress) && step.spelling == name {
        word::with(users, u32::from(body))
    } else {
        users
    }
}

// The mask of the bodies that use the resource of a name.
fn mask(text: &[u8], tokens: usize, name: &[u8]) -> u32
    ensures { result ≡ mask tokens text.now 0 fresh name.now 0 0 }
{
    let mut users = 0;
    let mut body = 0;
    for step in TokenWalk::new(text, tokens) {
        users = marked(step, name, body, users);
        body = numbered(step.progress, body);
    }
    users
}

// The number that digits are, held as a byte.
fn value(digits: &[u8]) -> u8
    ensures { result ≡ held (decimal 0 digits.now) }
{
    digits.iter().fold(
        0u8,
        |n, digit| n
            .saturating_mul(10)
            .saturating_add(digit.saturating_sub(b'0')),
    )
}

// Stores `value` as the element number `n`, where there is one.
fn store<T: Copy>(row: &mut [T], n: u8, value: T)
    ensures { row.new ≡ slice_set row.old n value }
{
    let n = usize::from(n);
    if n < row.len() {
        row[n] = value;
    }
}

// The kind of the body that a token begins: 0 for TASK, 1 for ISR.
fn kind_of(sort: Sort) -> u8
    ensures { result ≡ kind_of (number_of sort) }
{
    // `as` is how an enum gives its number.
    (sort as u8) - 1
}

// One more body or resource.
#[tactic(auto, unfolding(oil_grammar::specs::Meaning::ended))]
fn ended(kind: Option<Sort>, mut c: Config) -> Config
    ensures { result ≡ ended (sort_number kind) c }
{
    if kind == Some(Sort::Resource) {
        c.resources = c.resources.saturating_add(1);
    } else {
        c.bodies = c.bodies.saturating_add(1);
    }
    c
}

// `c` with what a token says.
#[tactic(auto, unfolding(oil_grammar::specs::Walk::put_at))]
fn put(text: &[u8], tokens: usize, step: Step, mut c: Config) -> Config
    ensures { result ≡ put (λ x. mask tokens text.now 0 fresh x 0 0) (as_progress step.entry.progress) c
        (number_of step.entry.token.sort) step.entry.spelling.now }
{
    let progress = step.progress;
    let sort = step.token.sort;
    let body = c.bodies;
    let resource = c.resources;
    match progress.want {
        Want::Object => {
            if sort != Sort::Resource {
                store(&mut c.kind, body, kind_of(sort));
            }
        }
        Want::Name => {
            // A mask goes over the whole text, so none is asked for without room for it.
            if progress.kind == Some(Sort::Resource) && usize::from(resource) < c.users.len() {
                let users = mask(text, tokens, step.spelling);
                store(&mut c.users, resource, users);
            }
        }
        Want::PriorityNumber => store(&mut c.priority, body, value(step.spelling)),
        Want::AutostartValue => store(&mut c.autostart, body, u8::from(sort == Sort::True)),
        Want::ObjectEnd => return ended(progress.kind, c),
        _ => {}
    }
    c
}

// The configuration of a text of `tokens` tokens.
pub fn fill(text: &[u8], tokens: usize) -> Config
    ensures { result ≡ filled text.now tokens }
{
    let mut c = empty();
    for step in TokenWalk::new(text, tokens) {
        c = put(text, tokens, step, c);
    }
    c
}
