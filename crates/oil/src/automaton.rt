// What a token may be, and how far it takes the text.
ghost use Rattle.std.specs.Prelude.{◌≡◌};
ghost use Rattle.oil_grammar.specs.Automaton.{unexpected, unknown, only, object_fault, once, body_fault, attribute_fault, value_fault, fault, to, attribute_begun, after, fresh, names_object, uses_resource};
ghost use Rattle.number.specs.Answer.{code};
ghost use Rattle.oil.specs.Answer.{number_of, as_progress, refusal_of};

use crate::token::Sort;
use number::Refusal;
use oil_grammar::Want;

// How far a text has come: what it wants next, the token that its present object begins with, and which of the
// attributes that may stand once that object has had.
#[derive(Clone, Copy, Debug, PartialEq, Eq)]
pub struct Progress {
    pub want: Want,
    pub kind: Option<Sort>,
    pub priority: bool,
    pub autostart: bool,
}

// The refusal of a token that may not stand where it does.
#[tactic(auto, unfolding(oil_grammar::specs::Automaton::unexpected))]
fn unexpected(w: Sort) -> Refusal
    ensures { code result ≡ unexpected (number_of w) }
{
    match w {
        Sort::Unreadable => Refusal::UnreadableSign,
        _ => Refusal::UnexpectedWord,
    }
}

// The same where an object or an attribute may stand.
#[tactic(auto, unfolding(oil_grammar::specs::Automaton::unknown))]
fn unknown(w: Sort) -> Refusal
    ensures { code result ≡ unknown (number_of w) }
{
    match w {
        Sort::Task
        | Sort::Isr
        | Sort::Resource
        | Sort::Priority
        | Sort::Autostart
        | Sort::True
        | Sort::False
        | Sort::Name => Refusal::UnknownWord,
        _ => unexpected(w),
    }
}

// Where one sort alone may stand.
#[tactic(auto, unfolding(oil_grammar::specs::Automaton::only))]
fn only(wanted: Sort, w: Sort) -> Result<(), Refusal>
    ensures { refusal_of result ≡ only (number_of wanted) (number_of w) }
{
    if w == wanted {
        Ok(())
    } else {
        Err(unexpected(w))
    }
}

#[tactic(auto, unfolding(oil_grammar::specs::Automaton::object_fault))]
fn object_fault(w: Sort) -> Result<(), Refusal>
    ensures { refusal_of result ≡ object_fault (number_of w) }
{
    match w {
        Sort::Task | Sort::Isr | Sort::Resource | Sort::End => Ok(()),
        _ => Err(unknown(w)),
    }
}

#[tactic(auto, unfolding(oil_grammar::specs::Automaton::value_fault))]
fn value_fault(w: Sort) -> Result<(), Refusal>
    ensures { refusal_of result ≡ value_fault (number_of w) }
{
    match w {
        Sort::True => Ok(()),
        _ => only(Sort::False, w),
    }
}

// An attribute may not have been given before.
fn once(given: bool) -> Result<(), Refusal>
    ensures { refusal_of result ≡ once given }
{
    if given {
        Err(Refusal::GivenTwice)
    } else {
        Ok(())
    }
}

// Where an attribute of a body may stand.
#[tactic(auto, unfolding(oil_grammar::specs::Automaton::body_fault))]
fn body_fault(s: Progress, w: Sort) -> Result<(), Refusal>
    ensures { refusal_of result ≡ body_fault (as_progress s) (number_of w) }
{
    match w {
        Sort::Close if s.priority => Ok(()),
        Sort::Close => Err(Refusal::UnexpectedWord),
        Sort::Priority => once(s.priority),
        Sort::Resource => Ok(()),
        Sort::Autostart if s.kind == Some(Sort::Task) => once(s.autostart),
        _ => Err(unknown(w)),
    }
}

#[tactic(auto, unfolding(oil_grammar::specs::Automaton::attribute_fault))]
fn attribute_fault(s: Progress, w: Sort) -> Result<(), Refusal>
    ensures { refusal_of result ≡ attribute_fault (as_progress s) (number_of w) }
{
    if s.kind != Some(Sort::Resource) {
        return body_fault(s, w);
    }
    match w {
        Sort::Close => Ok(()),
        _ => Err(unknown(w)),
    }
}

// The refusal of a token of the sort `w` where the text has come as far as `s`.
#[tactic(auto, unfolding(oil_grammar::specs::Automaton::fault_at))]
pub fn fault(s: Progress, w: Sort) -> Result<(), Refusal>
    ensures { refusal_of result ≡ fault (as_progress s) (number_of w) }
{
    match s.want {
        Want::Object => object_fault(w),
        Want::Name | Want::Use => only(Sort::Name, w),
        Want::Open => only(Sort::Open, w),
        Want::Attribute => attribute_fault(s, w),
        Want::PriorityEquals | Want::AutostartEquals | Want::UseEquals => only(Sort::Equals, w),
        Want::PriorityNumber => only(Sort::Number, w),
        Want::AutostartValue => value_fault(w),
        Want::AttributeEnd | Want::ObjectEnd => only(Sort::Semicolon, w),
    }
}

// The same object, at another want.
fn to(s: Progress, want: Want) -> Progress
    ensures { as_progress result ≡ to (as_progress s) want }
{
    Progress { want, ..s }
}

// After the token that begins an attribute, or the brace that ends them.
#[tactic(auto, unfolding(oil_grammar::specs::Automaton::attribute_begun))]
fn attribute_begun(s: Progress, w: Sort) -> Progress
    ensures { as_progress result ≡ attribute_begun (as_progress s) (number_of w) }
{
    match w {
        Sort::Close => to(s, Want::ObjectEnd),
        Sort::Priority => Progress {
            want: Want::PriorityEquals,
            priority: true,
            ..s
        },
        Sort::Resource => to(s, Want::UseEquals),
        _ => Progress {
            want: Want::AutostartEquals,
            autostart: true,
            ..s
        },
    }
}

// How far the text has come after a token of the sort `w`.
#[tactic(auto, unfolding(oil_grammar::specs::Automaton::after_at))]
pub fn after(s: Progress, w: Sort) -> Progress
    ensures { as_progress result ≡ after (as_progress s) (number_of w) }
{
    match s.want {
        Want::Object => Progress {
            want: Want::Name,
            kind: Some(w),
            priority: false,
            autostart: false,
        },
        Want::Name => to(s, Want::Open),
        Want::Open => to(s, Want::Attribute),
        Want::Attribute => attribute_begun(s, w),
        Want::PriorityEquals => to(s, Want::PriorityNumber),
        Want::AutostartEquals => to(s, Want::AutostartValue),
        Want::UseEquals => to(s, Want::Use),
        Want::PriorityNumber | Want::AutostartValue | Want::Use => to(s, Want::AttributeEnd),
        Want::AttributeEnd => to(s, Want::Attribute),
        Want::ObjectEnd => to(s, Want::Object),
    }
}

// Before the first token.
pub fn fresh() -> Progress
    ensures { as_progress result ≡ fresh }
{
    Progress {
        want: Want::Object,
        kind: None,
        priority: false,
        autostart: false,
    }
}

// Whether the name of an object is wanted.
#[tactic(auto, unfolding(oil_grammar::specs::Automaton::names_at))]
pub fn names_object(s: Progress) -> bool
    ensures { result ≡ names_object (as_progress s) }
{
    matches!(s.want, Want::Name)
}

// Whether the name of a RESOURCE attribute is wanted.
#[tactic(auto, unfolding(oil_grammar::specs::Automaton::uses_at))]
pub fn uses_resource(s: Progress) -> bool
    ensures { result ≡ uses_resource (as_progress s) }
{
    matches!(s.want, Want::Use)
}
