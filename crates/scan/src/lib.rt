// Where a byte stands in a run of bytes. Public: `find`.
#![tactic(auto)]

ghost use Rattle.std.specs.Prelude.{◌≡◌, ◌+◌, ◌-◌, ◌<◌, ◌≤◌, length, MatchOption, IfSome};
ghost use Rattle.scan.specs.Bytes.{index_of, slice};

// The first place from `from` on and below `to` that holds `b`: places of the whole run, as callers count them.
pub fn find(bytes: &[u8], from: usize, to: usize, b: u8) -> Option<usize>
    requires { (from ≤ to) × (to ≤ length bytes.now) }
    ensures place { MatchOption result
        (index_of b (slice from to bytes.now) ≡ to - from)
        (λ k. k ≡ from + index_of b (slice from to bytes.now)) }
    ensures within { IfSome result (λ k. k < to) }
{
    memchr::memchr(b, &bytes[from..to]).map(|k| from + k)
}
