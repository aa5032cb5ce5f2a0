// Term 3, two cubes that meet at a face: document 01, 'Face test'. Public: `compare_faces`, which refuses.
#![tactic(auto)]

ghost use Rattle.std.specs.Prelude.{◌≡◌};
ghost use Rattle.face.specs.Face.{is_face};
ghost use Rattle.meeting.specs.Meeting.{meet, joined, said, compared_of, AgreeBySign, FacesAgree};

use cube::{Cube, Face, Refusal};
use face::{alternates, face_answer, place, size, square_of};

// Whether face `n` of k, one of 1, 2 and 5, meets face `p` of l with equal values at paired corners.
#[tactic(auto, using(crate::proofs::Meetings::by_one, crate::proofs::Meetings::by_two, crate::proofs::Meetings::by_five, crate::proofs::Meetings::by_none))]
fn meets(k: Cube, n: u32, l: Cube, p: u32) -> bool
    ensures { result ≡ meet k n l p }
{
    match n {
        1 => (p == 3) & (k.c0 == l.c3) & (k.c4 == l.c7) & (k.c5 == l.c6) & (k.c1 == l.c2),
        2 => (p == 4) & (k.c1 == l.c0) & (k.c5 == l.c4) & (k.c6 == l.c7) & (k.c2 == l.c3),
        5 => (p == 6) & (k.c0 == l.c4) & (k.c3 == l.c7) & (k.c2 == l.c6) & (k.c1 == l.c5),
        _ => false,
    }
}

fn is_face(n: Face) -> bool
    ensures { result ≡ is_face n.0 }
{
    place(n).is_some()
}

// Term 3's premises, where n is a face of the first cube and p one of the second.
#[tactic(auto, unfolding(crate::specs::Meeting::joined, crate::specs::Meeting::alternate_at))]
fn joins(k: Cube, n: Face, l: Cube, p: Face) -> bool
    ensures { result ≡ joined k n.0 l p.0 }
{
    meets(k, size(n), l, size(p)) & alternates(square_of(k, n))
}

// Whether two cubes that meet at a face, with the same alternating values in range, answer alike: they do
// exactly when the two face numbers have the same sign. `None`: the faces do not meet so. Four arguments, since a cube with a
// face would be a pair made for this call alone.
#[tactic(auto, using(crate::proofs::Agreement::faces_agree, crate::proofs::Meetings::by_comparison), unfolding(crate::specs::Meeting::compared_of))]
pub fn compare_faces(k: Cube, n: Face, l: Cube, p: Face) -> Result<Option<bool>, Refusal>
    ensures result { said result ≡ compared_of k n.0 l p.0 }
    ensures by_sign { AgreeBySign n.0 p.0 result }
    ensures term_3 { FacesAgree }
{
    if !(is_face(n) & is_face(p)) {
        return Err(Refusal::NoFace);
    }
    if !(cube::all_finite(k) & cube::all_finite(l)) {
        return Err(Refusal::NotFinite);
    }
    if joins(k, n, l, p) | joins(l, p, k, n) {
        return Ok(Some(face_answer(k, n) == face_answer(l, p)));
    }
    Ok(None)
}
