// A list of cubes without their numbers: document 02, 'Change 1', by the rules of document 01's 'List'. Public:
// `choose_list_signs`.
#![tactic(auto)]

ghost use Rattle.std.specs.Prelude.{◌≡◌, ◌/◌, T, [], ◌∷◌, length};
ghost use Rattle.tilings.specs.Tilings.{is_one_of};
ghost use Rattle.rows.specs.Rows.{done};
ghost use Rattle.rows.specs.Results.{outcome_result};
ghost use Rattle.list.specs.Lists.{cubes, InPlace};
ghost use Rattle.list_signs.specs.Lists.{refusal_at, choice_at, result_of, answers_of, number_in};
ghost use Rattle.list_signs.specs.Tries.{ListTries};

use cube::Refusal;
use rows::{CubeList, ListRefused, Row};

// The cubes of a list by their corners alone, eight values a cube.
#[derive(Clone, Copy)]
struct Corners<'a> {
    values: &'a [f32],
}

impl CubeList for Corners<'_> {
    ghost count = { λ q. length q.values.now / 8 };

    ghost refusal = { λ q. refusal_at q.values.now };

    ghost choice = { λ q. choice_at q.values.now };

    fn refusal_at(self, i: usize) -> Option<Refusal> {
        if cube::all_finite(rows::cube_at(self.values, i)) {
            return None;
        }
        Some(Refusal::NotFinite)
    }

    fn row_at(self, i: usize) -> Row {
        rows::row_of(signs::choose_finite(rows::cube_at(self.values, i)))
    }
}

// A choice for each cube by the signs of its corners, a row of answer bytes each. Refusal 6 where the values are not
// 8 a cube, then 7, then 3 at the first cube that has a corner not finite; never 1 or 2. Two slices, as C lends them.
#[tactic(auto, using(crate::proofs::Tried::tries_hold))]
pub fn choose_list_signs(corners: &[f32], answers: &mut [u8]) -> Result<(), ListRefused>
    ensures outcome { outcome_result result ≡ result_of corners.now (length answers.old) }
    ensures answers { answers.new ≡ answers_of corners.now answers.old }
    ensures tries { ListTries }
    ensures refusals { T (is_one_of (number_in (outcome_result result)) (0 ∷ 3 ∷ 6 ∷ 7 ∷ [])) }
    ensures places { outcome_result result ≡ done → InPlace (choice_at corners.now) (cubes corners.now) answers.new }
{
    let n = corners.len() / 8;
    let whole = corners.len() % 8 == 0;
    list::choose_by(Corners { values: corners }, n, whole, answers)
}
