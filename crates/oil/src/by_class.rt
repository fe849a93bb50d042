// A search among the tokens of a text that goes by classes of names.
ghost use Rattle.std.specs.Prelude.{ℕ, Bool};
ghost use Rattle.oil.specs.Tokens.{First};
ghost use Rattle.oil.specs.ByClass.{FindsFirst};

use crate::hashing::Class;

// The first of the first `tokens` tokens that is sought: `find` is asked for the first below a bound of one class.
pub fn first_by_class<F: Fn(usize, Class) -> Option<usize>>(
    text: &[u8],
    tokens: usize,
    find: F,
) -> Option<usize>
    requires { F.IsAlwaysCallable find }
    ensures { (p : ℕ → Bool) → FindsFirst text.now tokens (λ n c r. F.post find n c r) p → First tokens p result }
{
    let class = Class::first(text, tokens);
    let mut first = None;
    for number in 0..class.count {
        let bound = first.unwrap_or(tokens);
        first = find(bound, class.numbered(number)).or(first);
    }
    first
}
