// Cases 10 and 12 of document 01, 'Choice', which ask two faces: the faces by configuration, and for each case its
// function, which follows the case's plan. The column s is 7. With both faces true the interior test takes -s, and a
// no leads to another row, 5 - configuration in case 10, 23 - configuration in case 12. Public: `case_10`, `case_12`.
#![tactic(auto)]

ghost use Rattle.std.specs.Prelude.{◌≡◌, ◌<◌, ◌≤◌, ◌*◌, ◌+◌, map};
ghost use Rattle.notes.specs.Notes.{no_notes};
ghost use Rattle.tilings.specs.Plan.{run};
ghost use Rattle.tilings.specs.Answers.{answers_of, reached};
ghost use Rattle.two_faces.specs.Plans.{plan_by, plan10, plan12};

use cube::{Cube, Face};
use face::face_answer;
use interior::{AmbiguousFace, test_interior};
use tilings::*;

// The tilings of a case, by which of the faces are true; `unless_inside` where the interior test says no.
#[derive(Clone, Copy)]
struct Tilings {
    pub both: u8,
    pub none: u8,
    pub first: u8,
    pub second: u8,
    pub unless_inside: u8,
}

// Two faces asked, and where both are true or none the interior test for the faces of `tested`. `other` is the row where
// both are true and the interior test says no.
fn two_faces<const N: usize>(
    q: Cube,
    faces: (Face, Face),
    tested: [AmbiguousFace; N],
    to: Tilings,
    row: u8,
    other: u8,
) -> Counted
    requires { 3 * N + 2 ≤ 255 }
    ensures { reached result ≡ run (answers_of q) (plan_by faces.0.0 faces.1.0 (map (λ face. face.n) tested.entry) to row other) no_notes }
{
    let first = face_answer(q, faces.0);
    let second = face_answer(q, faces.1);
    if first & !second {
        return plain(to.first, row, 2);
    }
    if second & !first {
        return plain(to.second, row, 2);
    }
    let found = test_interior(q, tested, side(!first));
    if first {
        return settle(found, 2, to.both, row, to.unless_inside, other);
    }
    settle(found, 2, to.none, row, to.unless_inside, row)
}

static FACES_10: [(i8, i8); 6] = [(2, 4), (5, 6), (1, 3), (1, 3), (5, 6), (2, 4)];

const TILINGS_10: Tilings = Tilings {
    both: TILING_10_1_1_,
    none: TILING_10_1_1,
    first: TILING_10_2,
    second: TILING_10_2_,
    unless_inside: TILING_10_1_2,
};

pub fn case_10(q: Cube, c: u8) -> Counted
    requires { c < 6 }
    ensures { reached result ≡ run (answers_of q) (plan10 c) no_notes }
{
    let (x, y) = FACES_10[c as usize];
    let tested = [ambiguous(Face(x))];
    two_faces(q, (Face(x), Face(y)), tested, TILINGS_10, c, 5 - c)
}

static FACES_12: [(i8, i8); 24] = [
    (4, 3),
    (3, 2),
    (2, 6),
    (6, 4),
    (2, 1),
    (5, 2),
    (5, 3),
    (5, 1),
    (5, 4),
    (6, 3),
    (1, 6),
    (1, 4),
    (4, 1),
    (6, 1),
    (3, 6),
    (4, 5),
    (1, 5),
    (3, 5),
    (2, 5),
    (1, 2),
    (4, 6),
    (6, 2),
    (2, 3),
    (3, 4),
];

const TILINGS_12: Tilings = Tilings {
    both: TILING_12_1_1_,
    none: TILING_12_1_1,
    first: TILING_12_2,
    second: TILING_12_2_,
    unless_inside: TILING_12_1_2,
};

pub fn case_12(q: Cube, c: u8) -> Counted
    requires { c < 24 }
    ensures { reached result ≡ run (answers_of q) (plan12 c) no_notes }
{
    let (x, y) = FACES_12[c as usize];
    let tested = [ambiguous(Face(x)), ambiguous(Face(y))];
    two_faces(q, (Face(x), Face(y)), tested, TILINGS_12, c, 23 - c)
}
