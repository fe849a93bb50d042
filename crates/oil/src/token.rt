// The tokens of a text.

// The sort of a token, by its number in the definitions: OIL's words, of which those of objects come first, the signs
// { } = ; and what is none of these.
#[derive(Clone, Copy, Debug, PartialEq, Eq)]
pub enum Sort {
    Task = 1,
    Isr = 2,
    Resource = 3,
    Priority = 4,
    Autostart = 5,
    True = 6,
    False = 7,
    Open = 8,
    Close = 9,
    Equals = 10,
    Semicolon = 11,
    Name = 12,
    Number = 13,
    // The text's end.
    End = 14,
    Unreadable = 15,
}

// A token of the text, from byte `start` up to byte `end`.
#[derive(Clone, Copy, Debug, PartialEq, Eq)]
pub struct Token {
    pub sort: Sort,
    pub start: usize,
    pub end: usize,
}
