// The cases of document 01, 'Choice': from a case and one of its configurations, together a family, to the choice. Inner
// routines for the choice, which has tested the family and the cube. Public: `choose`, and `asks` with
// `choose_plain`, by which a caller spares a case that asks nothing the longer way.
// Callers make that test themselves: were it in one function that they share, the compiler would take
// `choose` into it, and a case that asks nothing would go the longer way again.
#![tactic(auto)]

ghost use Rattle.std.specs.Prelude.{◌≡◌, false, ◌<◌, get_or};
ghost use Rattle.notes.specs.Notes.{no_notes};
ghost use Rattle.tilings.specs.Tilings.{configurations, first_tiling, is_one_of};
ghost use Rattle.tilings.specs.Plan.{run};
ghost use Rattle.tilings.specs.Answers.{answers_of, reached};
ghost use Rattle.families.specs.Plans.{asking, plan_of};

pub mod cases;

use cases::*;
use cube::Cube;
use family_13::case_13;
use tilings::*;
use two_faces::{case_10, case_12};

// The first tiling of a case, its only one where the case asks nothing; 0 for a case that is none, which no caller has,
// so an `Option` would be taken apart at once.
#[tactic(auto, using(crate::proofs::Families::no_first), unfolding(tilings::specs::Tilings::first_tiling, tilings::specs::Tilings::tilings_of))]
fn first_tiling(case: u8) -> u8
    ensures { result ≡ first_tiling case }
{
    match case {
        1 => TILING_1,
        2 => TILING_2,
        3 => TILING_3_1,
        4 => TILING_4_1,
        5 => TILING_5,
        6 => TILING_6_1_1,
        7 => TILING_7_1,
        8 => TILING_8,
        9 => TILING_9,
        10 => TILING_10_1_1,
        11 => TILING_11,
        12 => TILING_12_1_1,
        13 => TILING_13_1,
        14 => TILING_14,
        _ => 0,
    }
}

// A bit for each case that asks something. Tried as `matches!` and as a list with `contains`: the compiler joins either
// with the match in `choose`, and a case that asks nothing took 45 or 42 instructions for 26, and a mispredicted jump. Its own
// line, as `tilings::has_centre` has one.
const ASKING: u32 = 0x34d8;

#[tactic(auto, using(crate::proofs::Bits::below_16, crate::proofs::Bits::from_16))]
pub fn asks(case: u8) -> bool
    ensures { result ≡ is_one_of case asking }
{
    case < 16 && (ASKING >> case) % 2 == 1
}

// The choice for a configuration of a case that asks nothing.
#[tactic(auto, using(crate::proofs::Families::plainly))]
pub fn choose_plain(q: Cube, case: u8, c: u8) -> Counted
    requires { (c < get_or configurations case 0) × (is_one_of case asking ≡ false) }
    ensures { reached result ≡ run (answers_of q) (plan_of case c) no_notes }
{
    plain(first_tiling(case), c, 0)
}

// The choice for a configuration of a case. A match on the case, which is input: no step of a run to hand on as a closure.
#[tactic(auto, using(crate::proofs::Families::not_asking), unfolding(tilings::specs::Tilings::configurations, crate::specs::Plans::plans, crate::specs::Plans::plan_of))]
pub fn choose(q: Cube, case: u8, c: u8) -> Counted
    requires { c < get_or configurations case 0 }
    ensures { reached result ≡ run (answers_of q) (plan_of case c) no_notes }
{
    match case {
        3 => case_3(q, c),
        4 => case_4(q, c),
        6 => case_6(q, c),
        7 => case_7(q, c),
        10 => case_10(q, c),
        12 => case_12(q, c),
        13 => case_13(q, c),
        _ => choose_plain(q, case, c),
    }
}
