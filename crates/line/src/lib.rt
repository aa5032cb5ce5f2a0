// A line of the program's input: document 01, 'Program'. Public: `parse_line`.
#![tactic(auto)]

ghost use Rattle.std.specs.Prelude.{◌≡◌, cond, ◌&&◌, ◌+◌, ◌-◌, ◌*◌, ◌<◌, ◌≤◌, true, false, leb, negsuc, length, MatchOption};
ghost use Rattle.std.specs.Float.Ieee.{of_bits};
ghost use Rattle.std.specs.Float.{binary32};
ghost use Rattle.line.specs.Number.{decimal_digit, whole_of, signed_of};
ghost use Rattle.line.specs.Line.{parsed, corner_bits, have_corners, cube_in, parse_line};
ghost use Rattle.line.specs.Written.{WrittenBack, OnlyWritten};

use cube::Cube;

// Case, configuration and corners.
#[derive(Clone, Copy)]
pub struct Line {
    pub case: i8,
    pub configuration: i8,
    pub cube: Cube,
}

// A digit's value.
#[tactic(auto, unfolding(crate::specs::Number::decimal_digit))]
fn digit(b: u8) -> Option<u32>
    ensures { MatchOption result (decimal_digit b ≡ 10) (λ d. (d < 10) × (decimal_digit b ≡ d)) }
{
    match b {
        b'0'..=b'9' => Some(u32::from(b - b'0')),
        _ => None,
    }
}

// A whole number below 1000, without a needless zero.
#[tactic(auto, using(crate::proofs::Digits::wholes))]
fn whole(text: &[u8]) -> Option<u32>
    ensures { MatchOption result (whole_of text.now ≡ 1000) (λ n. (n < 1000) × (whole_of text.now ≡ n)) }
{
    match text {
        [a] => digit(*a),
        [b'0', ..] => None,
        [a, b] => Some(10 * digit(*a)? + digit(*b)?),
        [a, b, c] => Some(100 * digit(*a)? + 10 * digit(*b)? + digit(*c)?),
        _ => None,
    }
}

// -n, where that is in -128..-1. `i8::try_from` would let -0 through, and the match would stand beside it.
fn below(n: u32) -> Option<i8>
    ensures { result ≡ cond (leb 1 n && leb n 128) (Some (negsuc (n - 1))) None }
{
    match n {
        1..=128 => Some(-1 - ((n - 1) as i8)),
        _ => None,
    }
}

// A decimal in -128..127.
#[tactic(auto, using(crate::proofs::Decimals::signs))]
fn signed(text: &[u8]) -> Option<i8>
    ensures { result ≡ signed_of text.now }
{
    match text {
        [b'-', digits @ ..] => below(whole(digits)?),
        _ => i8::try_from(whole(text)?).ok(),
    }
}

// The value of corner `k`: a space and eight digits.
#[tactic(auto, using(crate::proofs::Corners::spaces))]
fn corner(tail: &[u8], k: usize) -> Option<f32>
    requires { 9 * k + 9 ≤ length tail.now }
    ensures { MatchOption result
        (corner_bits tail.now k ≡ 0x1_0000_0000)
        (λ x. (corner_bits tail.now k < 0x1_0000_0000) × (x ≡ of_bits binary32 (corner_bits tail.now k))) }
{
    let at = 9 * k;
    if tail[at] != b' ' {
        return None;
    }
    Some(binary32::float_of(hex_digits::word(tail, at + 1)?))
}

// The cube of the eight corners.
#[tactic(auto, using(crate::proofs::Corners::cubes))]
fn cube_in(tail: &[u8]) -> Option<Cube>
    requires { 72 ≤ length tail.now }
    ensures { MatchOption result
        (have_corners tail.now ≡ false)
        (λ q. (have_corners tail.now ≡ true) × (q ≡ cube_in tail.now)) }
{
    Some(Cube {
        c0: corner(tail, 0)?,
        c1: corner(tail, 1)?,
        c2: corner(tail, 2)?,
        c3: corner(tail, 3)?,
        c4: corner(tail, 4)?,
        c5: corner(tail, 5)?,
        c6: corner(tail, 6)?,
        c7: corner(tail, 7)?,
    })
}

// A line without its newline: its last 72 bytes are the corners, and what comes before is cut at its
// first space.
pub fn parse_line(line: &[u8]) -> Option<Line>
    ensures line { parsed result ≡ parse_line line.now }
    ensures back { WrittenBack }
    ensures only { OnlyWritten }
{
    let n = line.len().checked_sub(72)?;
    let k = scan::find(line, 0, n, b' ')?;
    Some(Line {
        case: signed(&line[..k])?,
        configuration: signed(&line[k + 1..n])?,
        cube: cube_in(&line[n..])?,
    })
}
