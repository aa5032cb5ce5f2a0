// Case 13 of document 01, 'Choice': the columns of TEST_13, SUB_CONFIG_13 as tilings and columns, and the function
// that follows the case's plan. Public: `case_13`.
#![tactic(auto)]

ghost use Rattle.std.specs.Prelude.{◌≡◌, ◌<◌, ◌≤◌};
ghost use Rattle.notes.specs.Notes.{no_notes, tests_of};
ghost use Rattle.tilings.specs.Plan.{run};
ghost use Rattle.tilings.specs.Answers.{answers_of, reached};
ghost use Rattle.family_13.specs.Plans.{tile13, part_at13, plan13};

use cube::{Cube, Face};
use thirteen::interior_test_case13;
use tilings::*;

// The faces asked, by configuration.
static TEST_13: [[i8; 6]; 2] = [[1, 2, 3, 4, 5, 6], [2, 3, 4, 1, 5, 6]];

// The tiling and the column by sub-configuration: SUB_CONFIG_13 and what follows from its number.
static TILED_13: [Option<(u8, u8)>; 64] = [
    Some((TILING_13_1, 0)),
    Some((TILING_13_2, 0)),
    Some((TILING_13_2, 1)),
    Some((TILING_13_3, 0)),
    Some((TILING_13_2, 2)),
    None,
    Some((TILING_13_3, 4)),
    None,
    Some((TILING_13_2, 3)),
    Some((TILING_13_3, 1)),
    None,
    None,
    Some((TILING_13_3, 7)),
    None,
    None,
    None,
    Some((TILING_13_2, 4)),
    Some((TILING_13_3, 2)),
    Some((TILING_13_3, 5)),
    Some((TILING_13_5_1, 0)),
    Some((TILING_13_3, 8)),
    None,
    Some((TILING_13_4, 2)),
    Some((TILING_13_3_, 11)),
    Some((TILING_13_3, 10)),
    Some((TILING_13_4, 1)),
    None,
    Some((TILING_13_3_, 9)),
    Some((TILING_13_5_1, 3)),
    Some((TILING_13_3_, 6)),
    Some((TILING_13_3_, 3)),
    Some((TILING_13_2_, 5)),
    Some((TILING_13_2, 5)),
    Some((TILING_13_3, 3)),
    Some((TILING_13_3, 6)),
    Some((TILING_13_4, 0)),
    Some((TILING_13_3, 9)),
    None,
    Some((TILING_13_5_1, 2)),
    Some((TILING_13_3_, 10)),
    Some((TILING_13_3, 11)),
    Some((TILING_13_5_1, 1)),
    None,
    Some((TILING_13_3_, 8)),
    Some((TILING_13_4, 3)),
    Some((TILING_13_3_, 5)),
    Some((TILING_13_3_, 2)),
    Some((TILING_13_2_, 4)),
    None,
    None,
    None,
    Some((TILING_13_3_, 7)),
    None,
    None,
    Some((TILING_13_3_, 1)),
    Some((TILING_13_2_, 3)),
    None,
    Some((TILING_13_3_, 4)),
    None,
    Some((TILING_13_2_, 2)),
    Some((TILING_13_3_, 0)),
    Some((TILING_13_2_, 1)),
    Some((TILING_13_2_, 0)),
    Some((TILING_13_1_, 0)),
];

// After the six face tests. 13_5 is told by one test more, and 13_5_2 is at the other configuration's row.
fn tile_13(q: Cube, c: u8, code: u8, column: u8) -> Counted
    requires { c < 2 }
    ensures { reached result ≡ run (answers_of q) (tile13 c code column) (tests_of 6) }
{
    if code == TILING_13_5_1 {
        if interior_test_case13(q) {
            return tile(TILING_13_5_1, c, column, notes::tests(7));
        }
        return tile(TILING_13_5_2, 1 - c, column, notes::tests(7));
    }
    tile(code, c, column, notes::tests(6))
}

fn part_13(q: Cube, c: u8, sub: u32) -> Counted
    requires { (c < 2) × (sub ≤ 63) }
    ensures { reached result ≡ run (answers_of q) (part_at13 c sub) (tests_of 6) }
{
    match TILED_13[sub as usize] {
        Some((code, column)) => tile_13(q, c, code, column),
        None => untiled(c, sub as u8, notes::tests(6)),
    }
}

pub fn case_13(q: Cube, c: u8) -> Counted
    requires { c < 2 }
    ensures { reached result ≡ run (answers_of q) (plan13 c) no_notes }
{
    let faces = TEST_13[c as usize];
    let low = ask_three(q, Face(faces[0]), Face(faces[1]), Face(faces[2]));
    let high = ask_three(q, Face(faces[3]), Face(faces[4]), Face(faces[5]));
    part_13(q, c, low + 8 * high)
}
