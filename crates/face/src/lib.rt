// The face test: document 01, 'Face test'; document 02, 'Change 6'. Public: `test_face`, which refuses, and
// `face_answer`, the rule alone, for callers that have tested their cube and face; `size` and `place`, the face without
// its sign, `square_of`, the values at its corners, and `alternates`, whether these are as term 3 and Change 6 have them.
#![tactic(auto)]

ghost use Rattle.std.specs.Prelude.{◌≡◌, ◌<◌, nat_abs};
ghost use Rattle.std.specs.List.{All};
ghost use Rattle.binary32.specs.Numbers.{f32};
ghost use Rattle.binary32.specs.Wholes.{EachIsWhole};
ghost use Rattle.face.specs.Face.{rule, face_of, said, test_face_of};
ghost use Rattle.face.specs.Columns.{place_of, row_of, square_of};
ghost use Rattle.face.specs.Laws.{up_and_down, alternate, FaceLawsAt, OfAnswer};
ghost use Rattle.face.specs.TrueJoin.{TrueJoinAt, NoTieIsTrueAt};

use binary32::in_range;
use cube::{Cube, Face, Refusal};

// The values at the corners of a face, in the face's order.
#[derive(Clone, Copy)]
pub struct Square {
    pub a: f32,
    pub b: f32,
    pub c: f32,
    pub d: f32,
}

// Corners a, b, c and d of each face, by |face|. There is no face 0: its row is read for numbers that
// are no face.
static CORNERS: [[u8; 4]; 7] = [
    [0, 0, 0, 0],
    [0, 4, 5, 1],
    [1, 5, 6, 2],
    [2, 6, 7, 3],
    [3, 7, 4, 0],
    [0, 3, 2, 1],
    [4, 7, 6, 5],
];

// |face|
pub fn size(face: Face) -> u32
    ensures { result ≡ nat_abs face.0 }
{
    u32::from(face.0.unsigned_abs())
}

// |face|, where there is such a face.
pub fn place(face: Face) -> Option<u32>
    ensures { result ≡ place_of face.0 }
{
    let k = size(face);
    if (1 <= k) & (k <= 6) { Some(k) } else { None }
}

// val = a×c - b×d; a tie answers face > 0, else (face × a) × val >= 0 does.
fn join(face: Face, s: Square) -> bool
    ensures { result ≡ rule f32 face.0 s.a s.b s.c s.d }
{
    let Square { a, b, c, d } = s;
    let epsilon = f32::EPSILON;
    let val = a * c - b * d;
    if val.abs() < epsilon {
        return 0 < face.0;
    }
    face.0 as f32 * a * val >= 0.0
}

// Corners a, b, c and d of a face.
fn corners_of(face: Face) -> [u8; 4]
    ensures row { result ≡ row_of face.0 }
    ensures corners { All (λ k. k < 8) result }
{
    CORNERS[place(face).unwrap_or(0) as usize]
}

// The values at the face's corners.
#[tactic(auto, using(crate::proofs::Columns::squared))]
pub fn square_of(q: Cube, face: Face) -> Square
    ensures { result ≡ square_of q face.0 }
{
    let values = cube::values(q);
    let [a, b, c, d] = corners_of(face);
    Square {
        a: values[a as usize],
        b: values[b as usize],
        c: values[c as usize],
        d: values[d as usize],
    }
}

// Four values, as in the definition, since `alternates` asks in two orders.
#[tactic(auto, unfolding(crate::specs::Laws::up_and_down))]
fn up_and_down(a: f32, b: f32, c: f32, d: f32) -> bool
    ensures { result ≡ up_and_down a b c d }
{
    in_range(a) & in_range(-b) & in_range(c) & in_range(-d)
}

// Whether the signs alternate, and each magnitude is in the range.
#[tactic(auto, unfolding(crate::specs::Laws::alternate))]
pub fn alternates(s: Square) -> bool
    ensures { result ≡ alternate s.a s.b s.c s.d }
{
    up_and_down(s.a, s.b, s.c, s.d) | up_and_down(s.b, s.a, s.d, s.c)
}

// The rule's answer. A number that is no face is given corner 0 four times.
#[tactic(auto, using(crate::proofs::Laws::face_laws, crate::proofs::TrueJoin::true_join_at, crate::proofs::TrueJoin::no_tie_at, binary32::proofs::Wholes::each_is_whole), unfolding(crate::specs::Face::face_of, crate::specs::Face::face_by))]
pub fn face_answer(q: Cube, face: Face) -> bool
    ensures answer { result ≡ face_of q face.0 }
    ensures laws { FaceLawsAt q face.0 result }
    ensures true_join { TrueJoinAt q face.0 result }
    ensures no_tie { NoTieIsTrueAt q face.0 result }
    ensures wholes { EachIsWhole }
{
    join(face, square_of(q, face))
}

// The face test: refusal 4 where the number is no face, 3 where a corner is not finite, or the answer.
#[tactic(auto, using(crate::proofs::Places::by_no_face, crate::proofs::Places::by_not_finite, crate::proofs::Places::by_answer, binary32::proofs::Wholes::each_is_whole))]
pub fn test_face(q: Cube, face: Face) -> Result<bool, Refusal>
    ensures answer { said result ≡ test_face_of q face.0 }
    ensures laws { OfAnswer (FaceLawsAt q face.0) (said result) }
    ensures true_join { OfAnswer (TrueJoinAt q face.0) (said result) }
    ensures no_tie { OfAnswer (NoTieIsTrueAt q face.0) (said result) }
    ensures wholes { EachIsWhole }
{
    if place(face).is_none() {
        return Err(Refusal::NoFace);
    }
    if !cube::all_finite(q) {
        return Err(Refusal::NotFinite);
    }
    Ok(face_answer(q, face))
}
