// The choice: document 01, 'A choice' and 'Choice'. Public: `handle_cube`, and its two halves, which
// lists want apart: `refusal` and `choose_tested`.
#![tactic(auto)]

ghost use Rattle.std.specs.Prelude.{◌≡◌, cond, ◌<◌, ◌≤◌, T, pos, get_or};
ghost use Rattle.tilings.specs.Tilings.{configurations};
ghost use Rattle.tilings.specs.Answers.{reached};
ghost use Rattle.choice.specs.Choice.{nat_of, refusal_of, choice_of, answer_of, said, number_or_0};
ghost use Rattle.choice.specs.Inner.{InnerNumbers};
ghost use Rattle.choice.specs.Kin.{kin, kin_of};
ghost use Rattle.choice.specs.Ranges.{said_in_ranges};
ghost use Rattle.choice.specs.Starred.{StarredCubes};
ghost use Rattle.choice.specs.Unmatched.{NoneOrAll};

use cube::{Cube, Refusal};
use tilings::Counted;

// A case and one of its configurations; `Nothing` is case 0, a family too, so this is no `Option`. The numbers are document
// 01's own, which tables are read by.
#[derive(Clone, Copy)]
enum Family {
    Nothing,
    Known(u8, u8),
}

// How many configurations from 0 a case has; case 0 has -1 alone.
fn configurations_of(case: u8) -> u8
    ensures { result ≡ get_or configurations case 0 }
{
    match case {
        1 => 16,
        2 => 24,
        3 => 24,
        4 => 8,
        5 => 48,
        6 => 48,
        7 => 16,
        8 => 6,
        9 => 8,
        10 => 6,
        11 => 12,
        12 => 24,
        13 => 2,
        14 => 12,
        _ => 0,
    }
}

// The family of a case below 15, or refusal 2.
fn configured(case: u8, configuration: i8) -> Result<Family, Refusal>
    requires { case < 15 }
    ensures { kin result ≡ kin_of (pos case) configuration }
{
    match cube::take_apart(configuration) {
        Ok(c) if c < configurations_of(case) => Ok(Family::Known(case, c)),
        Err(k) if (case == 0) & (k == 0) => Ok(Family::Nothing),
        _ => Err(Refusal::NoConfiguration),
    }
}

// The family, or refusal 1, then 2.
fn family_of(case: i8, configuration: i8) -> Result<Family, Refusal>
    ensures { kin result ≡ kin_of case configuration }
{
    match cube::take_apart(case) {
        Ok(k) if k < 15 => configured(k, configuration),
        _ => Err(Refusal::NoCase),
    }
}

// The choice: refusal 1, 2 or 3 in this order, or what document 01 chooses. Document 02's figures, how many readings a case
// makes, are part of `ranges`. Three arguments, as document 01 and C have them.
#[tactic(auto, using(crate::proofs::Starred::starred, crate::proofs::Inner::inner_numbers, crate::proofs::Unmatched::none_or_all_lem))]
pub fn handle_cube(case: i8, configuration: i8, q: Cube) -> Result<Counted, Refusal>
    ensures choice { said result ≡ answer_of case configuration q }
    ensures ranges { T (said_in_ranges (nat_of case) (said result)) }
    ensures starred { StarredCubes }
    ensures inner { InnerNumbers }
    ensures unmatched { NoneOrAll }
{
    let family = family_of(case, configuration)?;
    if !cube::all_finite(q) {
        return Err(Refusal::NotFinite);
    }
    match family {
        Family::Nothing => Ok(tilings::nothing()),
        Family::Known(k, c) => {
            if families::asks(k) {
                return Ok(families::choose(q, k, c));
            }
            Ok(families::choose_plain(q, k, c))
        }
    }
}

// Refusal 3, unless the corners are finite.
fn corner_refusal(finite: bool) -> Option<Refusal>
    ensures { number_or_0 result ≡ cond finite 0 3 }
{
    if finite {
        None
    } else {
        Some(Refusal::NotFinite)
    }
}

// Why a choice is refused, if it is. No choice is made for it.
pub fn refusal(case: i8, configuration: i8, q: Cube) -> Option<Refusal>
    ensures { number_or_0 result ≡ refusal_of case configuration q }
{
    let finite = cube::all_finite(q);
    match family_of(case, configuration) {
        Ok(_) => corner_refusal(finite),
        Err(why) => Some(why),
    }
}

// The choice of a cube that `refusal` gives nothing for: the tests are not made again. An inner routine for
// lists.
pub fn choose_tested(case: i8, configuration: i8, q: Cube) -> Counted
    requires { refusal_of case configuration q ≡ 0 }
    ensures choice { reached result ≡ choice_of case configuration q }
    ensures few { (result.notes.unsettled ≤ 3) × (result.notes.readings ≤ 7) }
{
    match (cube::take_apart(case), cube::take_apart(configuration)) {
        (Ok(n), Ok(c)) => {
            if families::asks(n) {
                return families::choose(q, n, c);
            }
            families::choose_plain(q, n, c)
        }
        // case 0's
        _ => tilings::nothing(),
    }
}
