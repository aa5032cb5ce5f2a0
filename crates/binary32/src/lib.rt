// IEEE 754 binary32 as the other crates use it: a float made from any 32 bits, and
// the range of magnitudes for which faces are shown to agree.
#![tactic(auto)]

ghost use Rattle.std.specs.Prelude.{◌≡◌};
ghost use Rattle.std.specs.Float.Ieee.{of_bits};
ghost use Rattle.std.specs.Float.{binary32};
ghost use Rattle.binary32.specs.Range.{in_range};

// The f32 that `bits` stands for. `from_bits` is undefined at a NaN's pattern, so a NaN is made by
// arithmetic; which of the NaN patterns it then has is the machine's choice.
pub fn float_of(bits: u32) -> f32
    ensures { result ≡ of_bits binary32 bits }
{
    let digits = bits % 0x8000_0000;
    if 0x7f80_0000 < digits {
        return 0.0 / 0.0;
    }
    f32::from_bits(bits)
}

// From 1e-6 to 2^63.
pub fn in_range(x: f32) -> bool
    ensures { result ≡ in_range x }
{
    (0.000001 <= x) & (x <= 9223372036854775808.0)
}
