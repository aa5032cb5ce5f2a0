// The exports of `mc33_c`, by the names of include/mc33.h: each calls the function of its name there, and promises
// the same. Both crates stand, since one is a library or a static library, and a program of the gate calls these from
// Rattle.
#![tactic(auto)]

ghost use Rattle.std.specs.Prelude.{◌≡◌, length};
ghost use Rattle.root.specs.Root.{root_of, root_bits};
ghost use Rattle.root.specs.Nearest.{NearestRoot};
ghost use Rattle.root.specs.Special.{SpecialRoots, SpecialBits};
ghost use Rattle.face.specs.Face.{test_face_of};
ghost use Rattle.trust.specs.Trust.{trust_face_of};
ghost use Rattle.edge.specs.Edge.{edge_reading_of};
ghost use Rattle.choice.specs.Choice.{answer_of};
ghost use Rattle.signs.specs.Rule.{family_of};
ghost use Rattle.signs.specs.Table.{family_at};
ghost use Rattle.signs.specs.Front.{front_of};
ghost use Rattle.list.specs.Lists.{result_of, answers_of};
ghost use Rattle.list_signs.specs.Lists.{result_of as result_by_signs, answers_of as answers_by_signs};
ghost use Rattle.mc33_c.specs.Version.{version};
ghost use Rattle.mc33_c.specs.Answers.{choice_numbers, face_numbers, trust_numbers, edge_numbers, outcome_numbers};

use cube::Cube;
use mc33_c::{Mc33Choice, Mc33Edge, Mc33Face, Mc33Outcome, Mc33Trust};
use signs::Family;

#[unsafe(no_mangle)]
pub extern "C" fn mc33_version() -> u32
    ensures { result ≡ version }
{
    mc33_c::mc33_version()
}

#[unsafe(no_mangle)]
pub extern "C" fn mc33_root(x: f32) -> f32
    ensures value { result ≡ root_of x }
    ensures nearest { NearestRoot x result }
    ensures special { SpecialRoots x result }
{
    mc33_c::mc33_root(x)
}

#[unsafe(no_mangle)]
pub extern "C" fn mc33_root_bits(bits: u32) -> u32
    ensures pattern { result ≡ root_bits bits }
    ensures special { SpecialBits bits result }
{
    mc33_c::mc33_root_bits(bits)
}

#[unsafe(no_mangle)]
pub extern "C" fn mc33_choose(case: i8, configuration: i8, cube: Cube) -> Mc33Choice
    ensures { result ≡ choice_numbers (answer_of case configuration cube) }
{
    mc33_c::mc33_choose(case, configuration, cube)
}

#[unsafe(no_mangle)]
pub extern "C" fn mc33_family_of(set: u8) -> Family
    ensures table { result ≡ family_at set }
    ensures rule { result ≡ family_of set }
{
    mc33_c::mc33_family_of(set)
}

#[unsafe(no_mangle)]
pub extern "C" fn mc33_choose_signs(cube: Cube) -> Mc33Choice
    ensures { result ≡ choice_numbers (front_of cube) }
{
    mc33_c::mc33_choose_signs(cube)
}

#[unsafe(no_mangle)]
pub extern "C" fn mc33_face(cube: Cube, face: i8) -> Mc33Face
    ensures { result ≡ face_numbers (test_face_of cube face) }
{
    mc33_c::mc33_face(cube, face)
}

#[unsafe(no_mangle)]
pub extern "C" fn mc33_trust_face(cube: Cube, face: i8) -> Mc33Trust
    ensures { result ≡ trust_numbers (trust_face_of cube face) }
{
    mc33_c::mc33_trust_face(cube, face)
}

#[unsafe(no_mangle)]
pub extern "C" fn mc33_edge(cube: Cube, edge: i8) -> Mc33Edge
    ensures { result ≡ edge_numbers (edge_reading_of cube edge) }
{
    mc33_c::mc33_edge(cube, edge)
}

#[unsafe(no_mangle)]
pub extern "C" fn mc33_list(corners: &[f32], numbers: &[i8], answers: &mut [u8]) -> Mc33Outcome
    ensures outcome { result ≡ outcome_numbers (result_of corners.now numbers.now (length answers.old)) }
    ensures answers { answers.new ≡ answers_of corners.now numbers.now answers.old }
{
    mc33_c::mc33_list(corners, numbers, answers)
}

#[unsafe(no_mangle)]
pub extern "C" fn mc33_list_signs(corners: &[f32], answers: &mut [u8]) -> Mc33Outcome
    ensures outcome { result ≡ outcome_numbers (result_by_signs corners.now (length answers.old)) }
    ensures answers { answers.new ≡ answers_by_signs corners.now answers.old }
{
    mc33_c::mc33_list_signs(corners, answers)
}
