// Text appended to a vector of bytes: a run of bytes, and numbers in decimal digits; and bytes moved to the
// front of a slice. Inner routines of the text program. Public: `bytes`, `decimal`, `small`, `to_front`.
#![tactic(auto)]

ghost use Rattle.std.specs.Prelude.{◌≡◌, ◌+◌, ◌-◌, ◌≤◌, ◌++◌, length, take, drop};
ghost use Rattle.arrayvec.specs.ArrayVec.{array_vec_len};
ghost use Rattle.put.specs.Placed.{placed};
ghost use Rattle.put.specs.Decimal.{decimal};

use arrayvec::ArrayVec;

pub fn bytes<const CAP: usize>(text: &[u8], out: &mut ArrayVec<u8, CAP>)
    requires { array_vec_len out.old + length text.now ≤ CAP }
    ensures { out.new.items ≡ out.old.items ++ text.now }
{
    // There is room, so all of it is appended.
    let _ = out.try_extend_from_slice(text);
}

#[tactic(auto, using(crate::proofs::Digits::decimal_is))]
pub fn decimal<const CAP: usize>(n: u64, out: &mut ArrayVec<u8, CAP>)
    requires { array_vec_len out.old + length (decimal n) ≤ CAP }
    ensures { out.new.items ≡ out.old.items ++ decimal n }
{
    let mut digits = itoa::Buffer::new();
    bytes(digits.format(n).as_bytes(), out);
}

// A number of a choice; most have one digit.
#[tactic(auto, using(crate::proofs::Digits::decimal_one, crate::proofs::Digits::decimal_small))]
pub fn small<const CAP: usize>(n: u8, out: &mut ArrayVec<u8, CAP>)
    requires { array_vec_len out.old + 3 ≤ CAP }
    ensures text { out.new.items ≡ out.old.items ++ decimal n }
    ensures room { array_vec_len out.new ≤ array_vec_len out.old + 3 }
{
    if n < 10 {
        out.push(b'0' + n);
        return;
    }
    decimal(n as u64, out);
}

// Moves the bytes from `from` up to `to`, a range as `copy_within` takes it, to the front, and answers how many they are.
#[tactic(auto, using(crate::proofs::Placed::moved))]
pub fn to_front(buf: &mut [u8], from: usize, to: usize) -> usize
    requires { (from ≤ to) × (to ≤ length buf.old) }
    ensures place { result ≡ to - from }
    ensures text { buf.new ≡ placed buf.old 0 (take (to - from) (drop from buf.old)) }
{
    buf.copy_within(from..to, 0);
    to - from
}
