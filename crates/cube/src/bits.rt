// Answers as a number: 1 for the first, 2 for the second, 4 for the third ..
ghost use Rattle.std.specs.Prelude.{◌≡◌, [], ◌∷◌, ◌≤◌};
ghost use Rattle.cube.specs.Bits.{bit_of, number_of};

// `u32::from` would say no more.
pub fn bit(b: bool) -> u32
    ensures { (result ≤ 1) × (result ≡ bit_of b) }
{
    b as u32
}

// Three by name: a fold over an array of answers would be no plainer.
#[tactic(auto, using(crate::proofs::Bounds::three_bound))]
pub fn three(b0: bool, b1: bool, b2: bool) -> u32
    ensures { (result ≤ 7) × (result ≡ number_of (b0 ∷ b1 ∷ b2 ∷ [])) }
{
    bit(b0) + 2 * bit(b1) + 4 * bit(b2)
}
