// Document 01, 'A choice': a choice and what was counted on the way to it, the tilings by the source's table names
// with their codes, and what makes a choice (`nothing`, `untiled`, `tile`, `plain`, `settle`, `has_centre`). Also what the
// cases that ask something share: s (`side`), the ambiguous face (`ambiguous`), three faces asked (`ask_three`).
#![tactic(auto)]

ghost use Rattle.std.specs.Prelude.{◌≡◌, [], ◌∷◌, map, ◌+◌, ◌≤◌, T, nat_abs};
ghost use Rattle.cube.specs.Bits.{number_of};
ghost use Rattle.face.specs.Face.{is_face, face_of};
ghost use Rattle.notes.specs.Notes.{no_notes, tests_of};
ghost use Rattle.interior.specs.Interior.{counted};
ghost use Rattle.tilings.specs.Tilings.{has_centre};
ghost use Rattle.tilings.specs.Plan.{settled, empty, no_tiling, tiling, reach};
ghost use Rattle.tilings.specs.Answers.{reached, side_of};

use cube::bits::three;
use cube::{Cube, Face};
use face::face_answer;
use interior::{AmbiguousFace, Side, Sight};
use notes::Notes;

// `Untiled` has the configuration and the sub-configuration; `Tiled` the code, row and column, and whether the
// tiling is drawn with the centre. Numbers of the variant and no struct: of four bytes in one the compiler made a word and took
// it apart again, and lists of cases that ask nothing took 1.17 times the time.
#[derive(Clone, Copy)]
pub enum Choice {
    Empty,
    Untiled(u8, u8),
    Tiled(u8, u8, u8, bool),
}

// A choice, and what was counted on the way to it.
#[derive(Clone, Copy)]
pub struct Counted {
    pub choice: Choice,
    pub notes: Notes,
}

// The codes stay numbers: `tile`, `plain`, `settle` and `has_centre` answer for any u8, and a type of the 38 codes would
// ask more of their callers.
pub const TILING_1: u8 = 1;

pub const TILING_2: u8 = 2;

pub const TILING_3_1: u8 = 3;

pub const TILING_3_2: u8 = 4;

pub const TILING_4_1: u8 = 5;

pub const TILING_4_2: u8 = 6;

pub const TILING_5: u8 = 7;

pub const TILING_6_1_1: u8 = 8;

pub const TILING_6_1_2: u8 = 9;

pub const TILING_6_2: u8 = 10;

pub const TILING_7_1: u8 = 11;

pub const TILING_7_2: u8 = 12;

pub const TILING_7_3: u8 = 13;

pub const TILING_7_4_1: u8 = 14;

pub const TILING_7_4_2: u8 = 15;

pub const TILING_8: u8 = 16;

pub const TILING_9: u8 = 17;

pub const TILING_10_1_1: u8 = 18;

pub const TILING_10_1_1_: u8 = 19;

pub const TILING_10_1_2: u8 = 20;

pub const TILING_10_2: u8 = 21;

pub const TILING_10_2_: u8 = 22;

pub const TILING_11: u8 = 23;

pub const TILING_12_1_1: u8 = 24;

pub const TILING_12_1_1_: u8 = 25;

pub const TILING_12_1_2: u8 = 26;

pub const TILING_12_2: u8 = 27;

pub const TILING_12_2_: u8 = 28;

pub const TILING_13_1: u8 = 29;

pub const TILING_13_1_: u8 = 30;

pub const TILING_13_2: u8 = 31;

pub const TILING_13_2_: u8 = 32;

pub const TILING_13_3: u8 = 33;

pub const TILING_13_3_: u8 = 34;

pub const TILING_13_4: u8 = 35;

pub const TILING_13_5_1: u8 = 36;

pub const TILING_13_5_2: u8 = 37;

pub const TILING_14: u8 = 38;

// A bit for each code whose tiling is drawn with the centre. Of a `matches!` over the codes the compiler made branches,
// of which a choice of case 13 mispredicted 0.3 more and one of case 12 0.2 more. `families::asks` is the like for cases: one
// function over a set would be this line, with the same two lemmas left to each.
const CENTRES: u64 = 0xe18602000;

#[tactic(auto, using(crate::proofs::Bits::below_64, crate::proofs::Bits::from_64))]
pub fn has_centre(code: u8) -> bool
    ensures { result ≡ has_centre code }
{
    code < 64 && (CENTRES >> code) % 2 == 1
}

// The choice of case 0.
pub fn nothing() -> Counted
    ensures { reached result ≡ reach empty no_notes }
{
    Counted {
        choice: Choice::Empty,
        notes: notes::none(),
    }
}

// No tiling, for a configuration and a sub-configuration.
pub fn untiled(c: u8, sub: u8, notes: Notes) -> Counted
    ensures { reached result ≡ reach (no_tiling c sub) notes }
{
    Counted {
        choice: Choice::Untiled(c, sub),
        notes,
    }
}

// A choice of a tiling; the centre goes by the code.
pub fn tile(code: u8, row: u8, column: u8, notes: Notes) -> Counted
    ensures { reached result ≡ reach (tiling code row column (has_centre code)) notes }
{
    Counted {
        choice: Choice::Tiled(code, row, column, has_centre(code)),
        notes,
    }
}

// A tiling that is chosen by so many face tests alone, in a table with one tiling a row.
pub fn plain(code: u8, row: u8, tests: u16) -> Counted
    ensures { reached result ≡ reach (tiling code row 0 (has_centre code)) (tests_of tests) }
{
    tile(code, row, 0, notes::tests(tests))
}

// Where an interior test leads after so many face tests: to a tiling and its row by a yes, to another by a no.
#[tactic(auto, unfolding(crate::specs::Plan::settled))]
pub fn settle(found: Sight, tests: u16, yes: u8, row: u8, no: u8, other: u8) -> Counted
    requires { tests + counted found ≤ 255 }
    ensures { reached result ≡ settled found (reach (tiling yes row 0 (has_centre yes))) (reach (tiling no other 0 (has_centre no))) (tests_of tests) }
{
    let notes = notes::add(notes::tests(tests), found.notes);
    if found.hit {
        return tile(yes, row, 0, notes);
    }
    tile(no, other, 0, notes)
}

// The number s of the TEST tables.
pub fn side(positive: bool) -> Side
    ensures { result.0 ≡ side_of positive }
{
    if positive { Side(7) } else { Side(-7) }
}

// The face that is ambiguous where a signed face is tested.
pub fn ambiguous(face: Face) -> AmbiguousFace
    requires { T (is_face face.0) }
    ensures face { result.n ≡ nat_abs face.0 }
{
    AmbiguousFace {
        n: face::size(face),
    }
}

// Three faces asked: 1 for the first, 2 for the second, 4 for the third.
pub fn ask_three(q: Cube, x: Face, y: Face, z: Face) -> u32
    ensures { (result ≤ 7) × (result ≡ number_of (map (face_of q) (x.0 ∷ y.0 ∷ z.0 ∷ []))) }
{
    three(face_answer(q, x), face_answer(q, y), face_answer(q, z))
}
