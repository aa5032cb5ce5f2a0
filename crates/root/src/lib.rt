// The f32 square root of document 01, paragraph 'Root': the value nearest to the root, without the
// machine's own. `root_bits` works on bit patterns and promises every bit, a NaN's too; `root` works
// on floats, where a NaN has no pattern of its own.
// A positive value is n * 4^k * 2^-298 with n from 2^46 up to 2^48. In units of the smallest value,
// 2^-149, its root is 2^k times that of n, which has the 24 digits that an f32 holds.
#![tactic(auto)]

ghost use Rattle.std.specs.Prelude.{◌≡◌, ◌+◌, ◌*◌, ◌^◌, ◌≤◌, ◌<◌};
ghost use Rattle.std.specs.Float.{binary32};
ghost use Rattle.std.specs.Float.Ieee.{to_bits};
ghost use Rattle.root.specs.Root.{whole_root, root_units, root_of, root_bits};
ghost use Rattle.root.specs.Nearest.{NearestRoot};
ghost use Rattle.root.specs.Special.{SpecialRoots, SpecialBits};
ghost use Rattle.root.specs.Search.{DigitsLeft};

use binary32::float_of;

// The whole root of n, digit by digit: `root` has the leading digits, and `bits` are left to find,
// of which the first weighs half of `unit`. A digit is tried by `<`, since `<=` takes some machines
// longer (`docs/PERFORMANCE.md`, 'The root's comparison').
fn isqrt(n: u64, root: u64, bits: u32, unit: u64) -> u64
    requires { DigitsLeft n root bits unit }
    ensures { result ≡ whole_root n }
{
    let mut q = root;
    let mut weight = unit;
    for _ in 0..bits {
        weight /= 2;
        let next = q + weight;
        q = if n < next * next { q } else { next };
    }
    q
}

// The pattern of the value nearest to the root of n * 4^k, in units of the smallest value: n is past
// the middle of q and q + 1 where it is above q * q + q. The leading digit of the root adds one to
// the exponent's field, and so does a carry out of all 24.
fn rounded(n: u64, k: u32) -> u32
    requires { (2 ^ 46 ≤ n) × ((n < 2 ^ 48) × (k < 192)) }
    ensures { result ≡ to_bits binary32 (root_units (n * 4 ^ k)) }
{
    let q = isqrt(n, 0x80_0000, 23, 0x80_0000);
    if q * q + q < n {
        return k * 0x80_0000 + (q as u32) + 1;
    }
    k * 0x80_0000 + (q as u32)
}

// The same for a smaller n, which is first brought up to 2^46 by fours; how many are wanted is not known before, so
// this is no `for`.
fn scaled(n: u64, k: u32) -> u32
    requires { (0 < n) × ((n < 2 ^ 48) × ((k < 192) × (2 ^ 48 ≤ n * 4 ^ k))) }
    ensures { result ≡ to_bits binary32 (root_units (n * 4 ^ k)) }
{
    let mut m = n;
    let mut j = k;
    while m < 0x4000_0000_0000 {
        m = m * 4;
        j -= 1;
    }
    rounded(m, j)
}

// The pattern of the root of a positive finite value by its exponent's field and its digits.
fn positive(field: u32, digits: u32) -> u32
    requires { (field < 255) × ((digits < 2 ^ 23) × (0 < field * 2 ^ 23 + digits)) }
    ensures { result ≡ root_bits (field * 2 ^ 23 + digits) }
{
    if field == 0 {
        return scaled(2 * (digits as u64), 74);
    }
    let a = (digits as u64) + 0x80_0000;
    if field % 2 == 0 {
        return rounded(a * 0x100_0000, field / 2 + 62);
    }
    rounded(a * 0x80_0000, field / 2 + 63)
}

// The pattern of the root of the value with the pattern `bits`.
#[tactic(auto, using(crate::proofs::Patterns::nan_root, crate::proofs::SpecialValues::special_bits))]
pub fn root_bits(bits: u32) -> u32
    ensures pattern { result ≡ root_bits bits }
    ensures special { SpecialBits bits result }
{
    if bits == 0 || bits == 0x8000_0000 || bits == 0x7f80_0000 {
        return bits;
    }
    if 0x7f80_0000 < bits {
        return 0x7fc0_0000;
    }
    positive(bits / 0x80_0000, bits % 0x80_0000)
}

// The root of x. A NaN is made by arithmetic, as `float_of` makes it: `f32::NAN` may have another pattern.
pub fn root(x: f32) -> f32
    ensures value { result ≡ root_of x }
    ensures nearest { NearestRoot x result }
    ensures special { SpecialRoots x result }
{
    if 0.0 <= x {
        return float_of(root_bits(f32::to_bits(x)));
    }
    0.0 / 0.0
}
