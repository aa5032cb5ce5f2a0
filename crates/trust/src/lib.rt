// Whether a face answer is the true join: document 02, 'Change 6'. Public: `trust_face`, which refuses.
#![tactic(auto)]

ghost use Rattle.std.specs.Prelude.{◌≡◌, ◌+◌, ◌*ℤ◌, T};
ghost use Rattle.std.specs.Float.{binary32};
ghost use Rattle.std.specs.Float.Ieee.{low};
ghost use Rattle.std.specs.Float.Ieee.Scale.{finite};
ghost use Rattle.binary32.specs.Wholes.{Exactly, whole_of};
ghost use Rattle.face.specs.Face.{is_face};
ghost use Rattle.face.specs.Laws.{alternate};
ghost use Rattle.face.specs.Columns.{square_of};
ghost use Rattle.trust.specs.Trust.{turned_of, trust_of, said, trust_face_of, OverWholes, SureWhereOf, MeansOf, OneTrustOf};

use cube::{Cube, Face, Refusal};
use face::{Square, alternates, square_of, test_face};

// Sure: the exact sign gives the answer. Turned: it says otherwise. Unknown: the values do not alternate in range.
#[derive(Clone, Copy)]
pub enum Trust {
    Sure,
    Turned,
    Unknown,
}

// A face answer, and whether it is the true join.
#[derive(Clone, Copy)]
pub struct FaceTrust {
    pub answer: bool,
    pub trust: Trust,
}

// x × y: an f64 holds the product of two f32 exactly.
fn product(x: f32, y: f32) -> f64
    requires first { T (finite x) }
    requires second { T (finite y) }
    ensures exact { Exactly (low binary32 + low binary32) result (whole_of x *ℤ whole_of y) }
    ensures first_whole { Exactly (low binary32) x (whole_of x) }
    ensures second_whole { Exactly (low binary32) y (whole_of y) }
{
    f64::from(x) * f64::from(y)
}

// Whether the exact sign of face × a × E says otherwise than the answer, for values that alternate in range.
#[tactic(auto, using(crate::proofs::Turning::finite_a, crate::proofs::Turning::finite_b, crate::proofs::Turning::finite_c, crate::proofs::Turning::finite_d, crate::proofs::Turning::by_comparison))]
fn is_turned(face: Face, s: Square, answer: bool) -> bool
    requires is_face { T (is_face face.0) }
    requires alternates { T (alternate s.a s.b s.c s.d) }
    ensures turned { result ≡ turned_of face.0 s answer }
    ensures wholes { OverWholes s }
{
    let first = product(s.a, s.c);
    let second = product(s.b, s.d);
    // the answer where E is above zero
    let along = (0 < face.0) == (0.0 <= s.a);
    (second < first) & (answer != along) | (first < second) & (answer == along)
}

// Whether an answer for the face is the true join.
#[tactic(auto, unfolding(crate::specs::Trust::trust_of))]
fn trust_of(face: Face, s: Square, answer: bool) -> Trust
    requires is_face { T (is_face face.0) }
    ensures trust { result ≡ trust_of face.0 s answer }
    ensures wholes { T (alternate s.a s.b s.c s.d) → OverWholes s }
{
    if !alternates(s) {
        return Trust::Unknown;
    }
    if is_turned(face, s, answer) {
        return Trust::Turned;
    }
    Trust::Sure
}

// The answer of the face test, with whether it is the true join: refusal 4, then 3, as there.
#[tactic(auto, using(crate::proofs::Trusting::answered_face, crate::proofs::Trusting::by_refusal, crate::proofs::Trusting::sure_at, crate::proofs::Trusting::means_at, crate::proofs::Sides::one_at))]
pub fn trust_face(q: Cube, face: Face) -> Result<FaceTrust, Refusal>
    ensures result { said result ≡ trust_face_of q face.0 }
    ensures sure { SureWhereOf q face.0 (said result) }
    ensures means { MeansOf q face.0 (said result) }
    ensures one { OneTrustOf q face.0 (said result) }
{
    let answer = test_face(q, face)?;
    let trust = trust_of(face, square_of(q, face), answer);
    Ok(FaceTrust { answer, trust })
}
