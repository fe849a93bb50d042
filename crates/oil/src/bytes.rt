// The bytes of a text by class.
ghost use Rattle.std.specs.Prelude.{◌≡◌};
ghost use Rattle.oil_grammar.specs.Byte.{is_space, is_digit, is_letter, is_name_byte, is_line_byte};
ghost use Rattle.oil_grammar.specs.Token.{sign_of};
ghost use Rattle.oil.specs.Answer.{sort_number};

use crate::token::Sort;

// Space, HT, LF, VT, FF or CR.
#[tactic(auto, unfolding(oil_grammar::specs::Byte::is_space))]
pub fn is_space(b: u8) -> bool
    ensures { result ≡ is_space b }
{
    matches!(b, b' ' | b'\t'..=b'\r')
}

#[tactic(auto, unfolding(oil_grammar::specs::Byte::is_digit))]
pub fn is_digit(b: u8) -> bool
    ensures { result ≡ is_digit b }
{
    b.is_ascii_digit()
}

// A letter or _.
#[tactic(auto, unfolding(oil_grammar::specs::Byte::is_letter))]
pub fn is_letter(b: u8) -> bool
    ensures { result ≡ is_letter b }
{
    b == b'_' || b.is_ascii_alphabetic()
}

// A byte with which a name goes on.
#[tactic(auto, unfolding(oil_grammar::specs::Byte::is_name_byte))]
pub fn is_name_byte(b: u8) -> bool
    ensures { result ≡ is_name_byte b }
{
    is_letter(b) || is_digit(b)
}

// A byte with which a line goes on.
#[tactic(auto, unfolding(oil_grammar::specs::Byte::is_line_byte))]
pub fn is_line_byte(b: u8) -> bool
    ensures { result ≡ is_line_byte b }
{
    b != b'\n'
}

// The sign that a byte is.
#[tactic(auto, unfolding(oil_grammar::specs::Token::sign_of))]
pub fn sign(b: u8) -> Option<Sort>
    ensures { sort_number result ≡ sign_of b }
{
    match b {
        b'{' => Some(Sort::Open),
        b'}' => Some(Sort::Close),
        b'=' => Some(Sort::Equals),
        b';' => Some(Sort::Semicolon),
        _ => None,
    }
}
