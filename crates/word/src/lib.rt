// A 32-bit word as a set of ranks: bit r is set where rank r is in the word.
#![tactic(auto)]

ghost use Rattle.std.specs.Prelude.{◌≡◌};
ghost use Rattle.word.specs.Word.{has, with, without, union, winner};

// How many ranks there are, 0 the lowest.
pub const RANKS: u32 = u32::BITS;
// The winner of the empty word, which is no rank. A number and no Option: the definition `winner` gives it.
pub const NO_WINNER: u32 = RANKS;

// Whether the rank is in the word.
#[tactic(auto, unfolding(crate::specs::Word::has))]
pub fn has(word: u32, rank: u32) -> bool
    ensures { result ≡ has word rank }
{
    rank < RANKS && (word >> rank) % 2 == 1
}

// The word with the rank in it. A number that is no rank changes nothing.
pub fn with(word: u32, rank: u32) -> u32
    ensures { result ≡ with word rank }
{
    if rank < RANKS {
        word | (1 << rank)
    } else {
        word
    }
}

// The word with the rank not in it. A number that is no rank changes nothing.
pub fn without(word: u32, rank: u32) -> u32
    ensures { result ≡ without word rank }
{
    if rank < RANKS {
        word & !(1 << rank)
    } else {
        word
    }
}

// The ranks of both words.
#[tactic(auto, unfolding(crate::specs::Word::union))]
pub fn union(word: u32, other: u32) -> u32
    ensures { result ≡ union word other }
{
    word | other
}

// The highest rank in the word, or NO_WINNER.
pub fn winner(word: u32) -> u32
    ensures { result ≡ winner word }
{
    if word == 0 {
        NO_WINNER
    } else {
        RANKS - 1 - word.leading_zeros()
    }
}
