// A list of cubes: document 01, 'List' and 'What is refused', with the rows of document 02, Change 10. Public:
// `choose_list`; and for any list of cubes `choose_by`.
#![tactic(auto)]

ghost use Rattle.std.specs.Prelude.{◌≡◌, ◌*◌, ◌^◌, ◌≤◌, ◌<◌, true, length};
ghost use Rattle.put.specs.Placed.{placed};
ghost use Rattle.rows.specs.Rows.{width, choice_at, done};
ghost use Rattle.rows.specs.Results.{outcome_result};
ghost use Rattle.rows.specs.OldRows.{OldRows, BareRows};
ghost use Rattle.list.specs.Lists.{cubes, first_from, result_by, rows_of, answers_by, result_of, answers_of, InPlace};
ghost use Rattle.list.specs.Tries.{ListTries};

use cube::Refusal;
use rows::{CubeList, Cubes, ListRefused, WIDTH};

// The first of n cubes that is refused.
fn first_refused<C: CubeList>(cubes: C, n: usize) -> Result<(), ListRefused>
    requires { n ≤ C.count cubes }
    ensures { outcome_result result ≡ first_from (C.refusal cubes) n 0 }
{
    for place in 0..n {
        if let Some(why) = cubes.refusal_at(place) {
            return Err(ListRefused { why, place });
        }
    }
    Ok(())
}

// The rows of n cubes, of which none is refused.
fn put_rows<C: CubeList>(cubes: C, n: usize, answers: &mut [u8])
    requires sizes { (n ≤ C.count cubes) × (width * n ≤ length answers.old) }
    requires made { first_from (C.refusal cubes) n 0 ≡ done }
    ensures { answers.new ≡ placed answers.old 0 (rows_of (C.choice cubes) n) }
{
    for k in 0..n {
        rows::put_row(cubes.row_at(k), answers, k);
    }
}

// A choice for each of n cubes, a row of answer bytes each: code, row, column, centre + 2 × unsettled, unmatched,
// readings. Refusal 6 unless the lengths agree, then 7, then a cube's. Two passes: no byte is written before every cube
// is known not to be refused.
pub fn choose_by<C: CubeList>(
    cubes: C,
    n: usize,
    agree: bool,
    answers: &mut [u8],
) -> Result<(), ListRefused>
    requires few { n < 2 ^ 61 }
    requires there { agree ≡ true → n ≤ C.count cubes }
    ensures outcome { outcome_result result ≡ result_by agree n (length answers.old) (C.refusal cubes) }
    ensures answers { answers.new ≡ answers_by (outcome_result result) (rows_of (C.choice cubes) n) answers.old }
    ensures places { outcome_result result ≡ done → InPlace (C.choice cubes) n answers.new }
{
    if !agree {
        return Err(ListRefused {
            why: Refusal::UnevenLists,
            place: 0,
        });
    }
    if answers.len() < WIDTH * n {
        return Err(ListRefused {
            why: Refusal::NoRoom,
            place: 0,
        });
    }
    first_refused(cubes, n)?;
    put_rows(cubes, n, answers);
    Ok(())
}

// The choices of cubes with their numbers, a row each. Three slices, as C lends them.
#[tactic(auto, using(crate::proofs::Controls::tries_hold, rows::proofs::Rows::old_rows, rows::proofs::Rows::bare_rows))]
pub fn choose_list(corners: &[f32], numbers: &[i8], answers: &mut [u8]) -> Result<(), ListRefused>
    ensures outcome { outcome_result result ≡ result_of corners.now numbers.now (length answers.old) }
    ensures answers { answers.new ≡ answers_of corners.now numbers.now answers.old }
    ensures tries { ListTries }
    ensures old { OldRows }
    ensures bare { BareRows }
    ensures places { outcome_result result ≡ done
        → InPlace (choice_at corners.now numbers.now) (cubes corners.now) answers.new }
{
    let n = corners.len() / 8;
    let agree = (corners.len() % 8 == 0) & (numbers.len() % 2 == 0) & (n == numbers.len() / 2);
    choose_by(Cubes { corners, numbers }, n, agree, answers)
}
