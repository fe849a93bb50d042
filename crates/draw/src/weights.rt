// The weights of the twelve codes: their sum, and which code a value picks.
ghost use Rattle.std.specs.Prelude.{◌≡◌};
ghost use Rattle.drawing.specs.Weights.{total, picked};

// How many weights there are.
const WEIGHTS: usize = 12;

// The sum of the weights. The proof of `iter().map().sum()` did not close.
pub fn total(weights: &[u16; 12]) -> u32
    ensures { result ≡ total weights.now }
{
    let mut sum = 0;
    for &weight in weights {
        sum += u32::from(weight);
    }
    sum
}

// The first code whose running sum exceeds the value; the last code where none does.
pub fn pick(weights: &[u16; 12], value: u32) -> u8
    ensures { result ≡ picked weights.now value }
{
    let mut sum = 0;
    for (i, &weight) in weights[..WEIGHTS - 1].iter().enumerate() {
        sum += u32::from(weight);
        if value < sum {
            return i as u8 + 1;
        }
    }
    WEIGHTS as u8
}
