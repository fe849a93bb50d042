// The generator: Marsaglia's xorshift on 32 bits.
ghost use Rattle.std.specs.Prelude.{◌≡◌};
ghost use Rattle.drawing.specs.Xorshift.{next};

// The value after `x`.
#[tactic(auto, unfolding(drawing::specs::Xorshift::xor_left, drawing::specs::Xorshift::xor_right, drawing::specs::Xorshift::next))]
pub fn next(x: u32) -> u32
    ensures { result ≡ next x }
{
    let y = x ^ (x << 13);
    let z = y ^ (y >> 17);
    z ^ (z << 5)
}
