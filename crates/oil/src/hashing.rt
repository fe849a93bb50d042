// Classes of names, by a hash: as many as a text has names for.
ghost use Rattle.std.specs.Prelude.{◌≡◌, ◌+◌, ◌*◌, ◌%◌, ◌<◌};
ghost use Rattle.oil.specs.Hash.{prime, hashed};

use crate::automaton::names_object;
use crate::token_walk::TokenWalk;

// The modulus of the hash.
const PRIME: u64 = 4294967291;

// The key of a text's own hash. That hash is the key of its names, so that no names fall into one class in every text.
const TEXT_KEY: u64 = 65599;

// How many names fall into a class: few enough that a class with more names than are kept does not come about by chance.
const NAMES_PER_CLASS: usize = 1600;

// The hash with one more byte.
fn hash_after(key: u64, h: u64, b: u8) -> u64
    requires { (key < prime) × (h < prime) }
    ensures { result ≡ (h * key + b) % prime }
{
    (h * key + u64::from(b)) % PRIME
}

// The hash of a name.
fn hash(key: u64, name: &[u8]) -> u64
    requires { key < prime }
    ensures { (result ≡ hashed key 0 name.now) × (result < prime) }
{
    let mut h = 0;
    for b in name {
        h = hash_after(key, h, *b);
    }
    h
}

// The names whose hash at `key`, modulo `count`, is `number`.
#[derive(Clone, Copy)]
pub struct Class {
    pub key: u64,
    pub count: u64,
    pub number: u64,
    ghost in_range: { (key < prime) × (0 < count) },
}

impl Class {
    ghost use Rattle.std.specs.Prelude.{◌≡◌, true, false, MatchOption};
    ghost use Rattle.oil.specs.Hash.{hashed};
    ghost use Rattle.oil.specs.Names.{in_class};

    // The first of the classes that the names of a text's first `tokens` tokens fall into.
    pub fn first(text: &[u8], tokens: usize) -> Self {
        let names = TokenWalk::new(text, tokens)
            .filter(|step| names_object(step.progress))
            .count();
        let count = (names / NAMES_PER_CLASS) as u64 + 1;
        // With one class any key will do.
        let key = if count == 1 {
            TEXT_KEY
        } else {
            hash(TEXT_KEY, text)
        };
        Class {
            key,
            count,
            number: 0,
        }
    }

    // The class of another number.
    pub fn numbered(self, number: u64) -> Self
        ensures { (result.key ≡ self.key) × (result.count ≡ self.count) × (result.number ≡ number) }
    {
        Class {
            key: self.key,
            count: self.count,
            number,
        }
    }

    // The hash of a name of the class.
    pub fn hash(self, name: &[u8]) -> Option<u64>
        ensures { MatchOption result (in_class self name.now ≡ false)
            (λ h. (in_class self name.now ≡ true) × (h ≡ hashed self.key 0 name.now)) }
    {
        let h = hash(self.key, name);
        (h % self.count == self.number).then_some(h)
    }
}
