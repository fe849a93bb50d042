// The grammar of OIL texts and the reading of them, as definitions and theorems, in specs/ and proofs/. No code runs
// here: what a text wants next is a value that the code of `oil` and the definitions share.
#![tactic(auto)]

// What the text wants next.
#[derive(Clone, Copy, Debug, PartialEq, Eq)]
pub enum Want {
    Object,
    Name,
    Open,
    Attribute,
    PriorityEquals,
    PriorityNumber,
    AutostartEquals,
    AutostartValue,
    UseEquals,
    Use,
    AttributeEnd,
    ObjectEnd,
}
