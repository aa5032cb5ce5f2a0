// The C interface of the proved crates, which `mc33_c_c` exports for C and Rust to link as a static library. Each
// function takes numbers and gives document 01's numbers, and promises what the crate's own routine does.
#![tactic(auto)]

ghost use Rattle.std.specs.Prelude.{◌≡◌, ◌≤◌, length};
ghost use Rattle.root.specs.Root.{root_of, root_bits};
ghost use Rattle.root.specs.Nearest.{NearestRoot};
ghost use Rattle.root.specs.Special.{SpecialRoots, SpecialBits};
ghost use Rattle.face.specs.Face.{test_face_of, said as face_said};
ghost use Rattle.trust.specs.Trust.{trust_face_of, said as trust_said};
ghost use Rattle.edge.specs.Edge.{edge_reading_of, said as edge_said};
ghost use Rattle.cube.specs.Bits.{bit_of};
ghost use Rattle.cube.specs.Refusals.{refusal_number};
ghost use Rattle.tilings.specs.Answers.{reached};
ghost use Rattle.choice.specs.Choice.{refused, readings_in, answer_of, said};
ghost use Rattle.signs.specs.Rule.{family_of};
ghost use Rattle.signs.specs.Table.{family_at};
ghost use Rattle.signs.specs.Front.{front_of};
ghost use Rattle.rows.specs.Results.{outcome_result};
ghost use Rattle.list.specs.Lists.{result_of, answers_of};
ghost use Rattle.list_signs.specs.Lists.{result_of as result_by_signs, answers_of as answers_by_signs};
ghost use Rattle.mc33_c.specs.Version.{version};
ghost use Rattle.mc33_c.specs.Answers.{answered, reached_numbers, choice_numbers, face_numbers, trust_number, trust_numbers, read_as, edge_numbers, outcome_numbers};

use cube::{Cube, EdgeNo, Face, Refusal};
use edge::Reading;
use notes::Notes;
use rows::ListRefused;
use signs::Family;
use tilings::{Choice, Counted};
use trust::{FaceTrust, Trust};

// `refusal` is 0 where there is an answer. Empty is all 0; no tiling is code 255, a number of the C interface, with the
// configuration as row and the sub-configuration as column. Behind them stands what was counted.
#[repr(C)]
#[derive(Clone, Copy)]
pub struct Mc33Choice {
    pub refusal: u8,
    pub code: u8,
    pub row: u8,
    pub column: u8,
    pub centre: u8,
    pub unsettled: u8,
    pub unmatched: u8,
    pub readings: u8,
}

// `answer` is 1 for true, and `refusal` 0 where there is one: numbers of the C interface.
#[repr(C)]
#[derive(Clone, Copy)]
pub struct Mc33Face {
    pub refusal: u8,
    pub answer: u8,
}

// `trust` is 1 for sure, 2 turned, 3 unknown, numbers of the C interface.
#[repr(C)]
#[derive(Clone, Copy)]
pub struct Mc33Trust {
    pub refusal: u8,
    pub answer: u8,
    pub trust: u8,
}

// `kind` is 1 for rising, 2 beyond, 3 crossed, 4 blank, numbers of the C interface; t and the product are 0 where
// the reading has none.
#[repr(C)]
#[derive(Clone, Copy)]
pub struct Mc33Edge {
    pub refusal: u8,
    pub kind: u8,
    pub t: f32,
    pub product: f32,
}

// A list's outcome, in numbers of the C interface: `refusal` is 0 where the list is done; `place` is that of the refused
// cube, counted from 0.
#[repr(C)]
#[derive(Clone, Copy)]
pub struct Mc33Outcome {
    pub refusal: u64,
    pub place: u64,
}

// The version of the library, as include/mc33.h has it: 1000 × major + minor.
pub fn mc33_version() -> u32
    ensures { result ≡ version }
{
    5002
}

// The f32 square root of x: the nearest value. A NaN has no pattern of its own here.
pub fn mc33_root(x: f32) -> f32
    ensures value { result ≡ root_of x }
    ensures nearest { NearestRoot x result }
    ensures special { SpecialRoots x result }
{
    root::root(x)
}

// The pattern of the f32 square root of the value with the pattern `bits`; 7fc00000 for every NaN.
pub fn mc33_root_bits(bits: u32) -> u32
    ensures pattern { result ≡ root_bits bits }
    ensures special { SpecialBits bits result }
{
    root::root_bits(bits)
}

#[tactic(auto, unfolding(crate::specs::Answers::choice_numbers))]
fn no_choice(why: Refusal) -> Mc33Choice
    ensures { result ≡ choice_numbers (refused (refusal_number why)) }
{
    Mc33Choice {
        refusal: cube::number(why),
        code: 0,
        row: 0,
        column: 0,
        centre: 0,
        unsettled: 0,
        unmatched: 0,
        readings: 0,
    }
}

#[tactic(auto, using(cube::proofs::Bounds::bit_bound))]
fn answered(code: u8, row: u8, column: u8, centre: bool, notes: Notes) -> Mc33Choice
    requires { notes.readings ≤ 255 }
    ensures { result ≡ answered code row column (bit_of centre) notes }
{
    Mc33Choice {
        refusal: 0,
        code,
        row,
        column,
        centre: centre as u8,
        unsettled: notes.unsettled,
        unmatched: notes.unmatched,
        readings: notes.readings as u8,
    }
}

// A choice as numbers. No `From`, which has no place for the `requires`; and a match of its own, as the row (`rows`) and the
// line (`answer`) have theirs: one packs two numbers into a byte, one prints.
#[tactic(auto, unfolding(crate::specs::Answers::reached_numbers))]
fn reached_numbers(r: Counted) -> Mc33Choice
    requires { r.notes.readings ≤ 255 }
    ensures { result ≡ reached_numbers (reached r) }
{
    let Counted { choice, notes } = r;
    match choice {
        Choice::Empty => answered(0, 0, 0, false, notes),
        Choice::Untiled(c, sub) => answered(255, c, sub, false, notes),
        Choice::Tiled(code, row, column, centre) => answered(code, row, column, centre, notes),
    }
}

#[tactic(auto, unfolding(crate::specs::Answers::choice_numbers))]
fn choice_numbers(answer: Result<Counted, Refusal>) -> Mc33Choice
    requires { readings_in (said answer) ≤ 255 }
    ensures { result ≡ choice_numbers (said answer) }
{
    match answer {
        Ok(r) => reached_numbers(r),
        Err(why) => no_choice(why),
    }
}

// The choice for a case, a configuration and a cube.
#[tactic(auto, using(choice::proofs::Ranges::few_in))]
pub fn mc33_choose(case: i8, configuration: i8, cube: Cube) -> Mc33Choice
    ensures { result ≡ choice_numbers (answer_of case configuration cube) }
{
    choice_numbers(choice::handle_cube(case, configuration, cube))
}

// The family of a set of corners, whose bit n is corner n: every number is a set.
pub fn mc33_family_of(set: u8) -> Family
    ensures table { result ≡ family_at set }
    ensures rule { result ≡ family_of set }
{
    signs::family_of(set)
}

// The choice for a cube by the signs of its corners; refusal 3 alone.
#[tactic(auto, using(signs::proofs::Front::few_in_front))]
pub fn mc33_choose_signs(cube: Cube) -> Mc33Choice
    ensures { result ≡ choice_numbers (front_of cube) }
{
    choice_numbers(signs::choose_signs(cube))
}

impl From<Result<bool, Refusal>> for Mc33Face {
    ghost from_gives = { λ answer numbers. numbers ≡ face_numbers (face_said answer) };

    #[tactic(auto, unfolding(crate::specs::Answers::face_numbers), using(cube::proofs::Bounds::bit_bound))]
    fn from(answer: Result<bool, Refusal>) -> Mc33Face {
        match answer {
            Ok(yes) => Mc33Face {
                refusal: 0,
                answer: yes as u8,
            },
            Err(why) => Mc33Face {
                refusal: cube::number(why),
                answer: 0,
            },
        }
    }
}

// The face test of a signed face number.
pub fn mc33_face(cube: Cube, face: i8) -> Mc33Face
    ensures { result ≡ face_numbers (test_face_of cube face) }
{
    Mc33Face::from(face::test_face(cube, Face(face)))
}

#[tactic(auto, unfolding(crate::specs::Answers::trust_number))]
fn trust_number(trust: Trust) -> u8
    ensures { result ≡ trust_number trust }
{
    match trust {
        Trust::Sure => 1,
        Trust::Turned => 2,
        Trust::Unknown => 3,
    }
}

impl From<Result<FaceTrust, Refusal>> for Mc33Trust {
    ghost from_gives = { λ answer numbers. numbers ≡ trust_numbers (trust_said answer) };

    #[tactic(auto, unfolding(crate::specs::Answers::trust_numbers), using(cube::proofs::Bounds::bit_bound))]
    fn from(answer: Result<FaceTrust, Refusal>) -> Mc33Trust {
        match answer {
            Ok(FaceTrust { answer, trust }) => Mc33Trust {
                refusal: 0,
                answer: answer as u8,
                trust: trust_number(trust),
            },
            Err(why) => Mc33Trust {
                refusal: cube::number(why),
                answer: 0,
                trust: 0,
            },
        }
    }
}

// The face test of a signed face number, with whether its answer is the true join.
pub fn mc33_trust_face(cube: Cube, face: i8) -> Mc33Trust
    ensures { result ≡ trust_numbers (trust_face_of cube face) }
{
    Mc33Trust::from(trust::trust_face(cube, Face(face)))
}

fn read(kind: u8, t: f32, product: f32) -> Mc33Edge
    ensures { result ≡ read_as kind t product }
{
    Mc33Edge {
        refusal: 0,
        kind,
        t,
        product,
    }
}

impl From<Result<Reading, Refusal>> for Mc33Edge {
    ghost from_gives = { λ answer numbers. numbers ≡ edge_numbers (edge_said answer) };

    #[tactic(auto, unfolding(crate::specs::Answers::edge_numbers, crate::specs::Answers::reading_numbers))]
    fn from(answer: Result<Reading, Refusal>) -> Mc33Edge {
        match answer {
            Ok(Reading::Rising) => read(1, 0.0, 0.0),
            Ok(Reading::Beyond(t)) => read(2, t, 0.0),
            Ok(Reading::Crossed(t, product)) => read(3, t, product),
            Ok(Reading::Blank) => read(4, 0.0, 0.0),
            Err(why) => Mc33Edge {
                refusal: cube::number(why),
                kind: 0,
                t: 0.0,
                product: 0.0,
            },
        }
    }
}

// The reading of an edge.
pub fn mc33_edge(cube: Cube, edge: i8) -> Mc33Edge
    ensures { result ≡ edge_numbers (edge_reading_of cube edge) }
{
    Mc33Edge::from(edge::interior_ambiguity_verification(cube, EdgeNo(edge)))
}

impl From<Result<(), ListRefused>> for Mc33Outcome {
    ghost from_gives = { λ outcome numbers. numbers ≡ outcome_numbers (outcome_result outcome) };

    #[tactic(auto, unfolding(crate::specs::Answers::outcome_numbers))]
    fn from(outcome: Result<(), ListRefused>) -> Mc33Outcome {
        match outcome {
            Ok(()) => Mc33Outcome {
                refusal: 0,
                place: 0,
            },
            Err(refused) => Mc33Outcome {
                refusal: u64::from(cube::number(refused.why)),
                place: refused.place as u64,
            },
        }
    }
}

// The choices for a list of cubes: 8 corner values and 2 numbers (case and configuration) a cube, and
// 6 answer bytes a cube. A refused list has every answer byte unchanged.
pub fn mc33_list(corners: &[f32], numbers: &[i8], answers: &mut [u8]) -> Mc33Outcome
    ensures outcome { result ≡ outcome_numbers (result_of corners.now numbers.now (length answers.old)) }
    ensures answers { answers.new ≡ answers_of corners.now numbers.now answers.old }
{
    Mc33Outcome::from(list::choose_list(corners, numbers, answers))
}

// The choices for a list of cubes by the signs of their corners: 8 corner values and 6 answer bytes a cube. A refused
// list has every answer byte unchanged.
pub fn mc33_list_signs(corners: &[f32], answers: &mut [u8]) -> Mc33Outcome
    ensures outcome { result ≡ outcome_numbers (result_by_signs corners.now (length answers.old)) }
    ensures answers { answers.new ≡ answers_by_signs corners.now answers.old }
{
    Mc33Outcome::from(list_signs::choose_list_signs(corners, answers))
}
