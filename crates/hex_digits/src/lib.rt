// Lower-case hex digits in a line of text. Public: `pair`, `word`.
#![tactic(auto)]

ghost use Rattle.std.specs.Prelude.{◌≡◌, ◌+◌, ◌<◌, ◌≤◌, length, MatchOption};
ghost use Rattle.hex_digits.specs.Hex.{digit_of, number_of, pair_of, word_of};

// Each byte's value as a digit, and 16 where it is none. A static is read in place, by one load: a line takes less time than by
// tests, whether its digits are mixed or come again.
static VALUES: [u8; 256] = [
    16, 16, 16, 16, 16, 16, 16, 16, 16, 16, 16, 16, 16, 16, 16, 16, 16, 16, 16, 16, 16, 16, 16, 16,
    16, 16, 16, 16, 16, 16, 16, 16, 16, 16, 16, 16, 16, 16, 16, 16, 16, 16, 16, 16, 16, 16, 16, 16,
    0, 1, 2, 3, 4, 5, 6, 7, 8, 9, 16, 16, 16, 16, 16, 16, 16, 16, 16, 16, 16, 16, 16, 16, 16, 16,
    16, 16, 16, 16, 16, 16, 16, 16, 16, 16, 16, 16, 16, 16, 16, 16, 16, 16, 16, 16, 16, 16, 16, 10,
    11, 12, 13, 14, 15, 16, 16, 16, 16, 16, 16, 16, 16, 16, 16, 16, 16, 16, 16, 16, 16, 16, 16, 16,
    16, 16, 16, 16, 16, 16, 16, 16, 16, 16, 16, 16, 16, 16, 16, 16, 16, 16, 16, 16, 16, 16, 16, 16,
    16, 16, 16, 16, 16, 16, 16, 16, 16, 16, 16, 16, 16, 16, 16, 16, 16, 16, 16, 16, 16, 16, 16, 16,
    16, 16, 16, 16, 16, 16, 16, 16, 16, 16, 16, 16, 16, 16, 16, 16, 16, 16, 16, 16, 16, 16, 16, 16,
    16, 16, 16, 16, 16, 16, 16, 16, 16, 16, 16, 16, 16, 16, 16, 16, 16, 16, 16, 16, 16, 16, 16, 16,
    16, 16, 16, 16, 16, 16, 16, 16, 16, 16, 16, 16, 16, 16, 16, 16, 16, 16, 16, 16, 16, 16, 16, 16,
    16, 16, 16, 16, 16, 16, 16, 16, 16, 16, 16, 16, 16, 16,
];

// A digit's value.
fn digit(b: u8) -> Option<u8>
    ensures { MatchOption result (digit_of b ≡ 16) (λ d. (d < 16) × (digit_of b ≡ d)) }
{
    let d = VALUES[b as usize];
    if d < 16 { Some(d) } else { None }
}

// The value of digits, the first the highest.
fn number(digits: &[u8]) -> Option<u32>
    requires { length digits.now ≤ 8 }
    ensures { result ≡ number_of 0 digits.now }
{
    let mut n = 0;
    for b in digits {
        n = 16 * n + u32::from(digit(*b)?);
    }
    Some(n)
}

// The value of the two digits from `at` on: a line and a place, as callers have them.
pub fn pair(line: &[u8], at: usize) -> Option<u8>
    requires { at + 2 ≤ length line.now }
    ensures { MatchOption result (pair_of line.now at ≡ 256) (λ n. pair_of line.now at ≡ n) }
{
    Some(number(&line[at..at + 2])? as u8)
}

// The value of the eight digits from `at` on.
pub fn word(line: &[u8], at: usize) -> Option<u32>
    requires { at + 8 ≤ length line.now }
    ensures { MatchOption result (word_of line.now at ≡ 0x1_0000_0000) (λ n. word_of line.now at ≡ n) }
{
    number(&line[at..at + 8])
}
