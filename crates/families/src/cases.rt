// Cases 3, 4, 6 and 7 of document 01, 'Choice': for each the columns of its TEST table, row by row,
// and its function, which follows the case's plan. The column s is a rule: 7 in the first half of the rows of
// cases 4, 6 and 7, -7 in the second.
ghost use Rattle.std.specs.Prelude.{◌≡◌, ◌<◌, ◌≤◌};
ghost use Rattle.notes.specs.Notes.{no_notes, tests_of};
ghost use Rattle.tilings.specs.Plan.{run};
ghost use Rattle.tilings.specs.Answers.{answers_of, reached};
ghost use Rattle.families.specs.Plans.{plan3, plan4, plan6, part7, plan7};

use cube::{Cube, Face};
use face::face_answer;
use interior::{test_interior, test_interior_three};
use tilings::*;

static FACE_3: [i8; 24] = [
    5, 1, 4, 5, 1, 2, 2, 3, 4, 3, 6, 6, -6, -6, -3, -4, -3, -2, -2, -1, -5, -4, -1, -5,
];

pub fn case_3(q: Cube, c: u8) -> Counted
    requires { c < 24 }
    ensures { reached result ≡ run (answers_of q) (plan3 c) no_notes }
{
    if face_answer(q, Face(FACE_3[c as usize])) {
        return plain(TILING_3_2, c, 1);
    }
    plain(TILING_3_1, c, 1)
}

#[tactic(auto, using(crate::proofs::Runs::four_settled))]
pub fn case_4(q: Cube, c: u8) -> Counted
    requires { c < 8 }
    ensures { reached result ≡ run (answers_of q) (plan4 c) no_notes }
{
    settle(
        test_interior_three(q, side(c < 4)),
        0,
        TILING_4_1,
        c,
        TILING_4_2,
        c,
    )
}

static FACE_6: [i8; 48] = [
    2, 4, 5, 5, 1, 3, 6, 1, 4, 1, 3, 5, 5, 1, 6, 2, 4, 2, 2, 6, 3, 4, 3, 6, -6, -3, -4, -3, -6, -2,
    -2, -4, -2, -6, -1, -5, -5, -3, -1, -4, -1, -6, -3, -1, -5, -5, -4, -2,
];

pub fn case_6(q: Cube, c: u8) -> Counted
    requires { c < 48 }
    ensures { reached result ≡ run (answers_of q) (plan6 c) no_notes }
{
    let face = Face(FACE_6[c as usize]);
    if face_answer(q, face) {
        return plain(TILING_6_2, c, 1);
    }
    let found = test_interior(q, [ambiguous(face)], side(c < 24));
    settle(found, 1, TILING_6_1_1, c, TILING_6_1_2, c)
}

static FACES_7: [(i8, i8, i8); 16] = [
    (1, 2, 5),
    (3, 4, 5),
    (4, 1, 6),
    (4, 1, 5),
    (2, 3, 5),
    (1, 2, 6),
    (2, 3, 6),
    (3, 4, 6),
    (-3, -4, -6),
    (-2, -3, -6),
    (-1, -2, -6),
    (-2, -3, -5),
    (-4, -1, -5),
    (-4, -1, -6),
    (-3, -4, -5),
    (-1, -2, -5),
];

// The tilings of case 7 with their columns by sub-configuration, below 7.
static TILED_7: [(u8, u8); 7] = [
    (TILING_7_1, 0),
    (TILING_7_2, 0),
    (TILING_7_2, 1),
    (TILING_7_3, 0),
    (TILING_7_2, 2),
    (TILING_7_3, 1),
    (TILING_7_3, 2),
];

// After the three face tests.
fn part_7(q: Cube, c: u8, sub: u32) -> Counted
    requires { (c < 16) × (sub ≤ 7) }
    ensures { reached result ≡ run (answers_of q) (part7 c sub) (tests_of 3) }
{
    if sub == 7 {
        // -s, so 7 in the second half of the rows
        return settle(
            test_interior_three(q, side(8 <= c)),
            3,
            TILING_7_4_1,
            c,
            TILING_7_4_2,
            c,
        );
    }
    let (code, column) = TILED_7[sub as usize];
    tile(code, c, column, notes::tests(3))
}

pub fn case_7(q: Cube, c: u8) -> Counted
    requires { c < 16 }
    ensures { reached result ≡ run (answers_of q) (plan7 c) no_notes }
{
    let (x, y, z) = FACES_7[c as usize];
    let sub = ask_three(q, Face(x), Face(y), Face(z));
    part_7(q, c, sub)
}
