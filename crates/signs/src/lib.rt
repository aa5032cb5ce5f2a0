// The family from the signs: document 02, 'Change 1'. Public: `corner_set` and `family_of`, which find case and
// configuration, and the front `choose_signs`, a cube to a choice; for lists `choose_finite`, which refuses nothing.
#![tactic(auto)]

mod table;

ghost use Rattle.std.specs.Prelude.{◌≡◌, cond, ◌≤◌, T};
ghost use Rattle.cube.specs.Corners.{all_finite};
ghost use Rattle.choice.specs.Choice.{said};
ghost use Rattle.tilings.specs.Answers.{reached};
ghost use Rattle.signs.specs.Sets.{set_of, BitsBelong};
ghost use Rattle.signs.specs.Rule.{family_of};
ghost use Rattle.signs.specs.Table.{family_at};
ghost use Rattle.signs.specs.Front.{choice_for, front_of, refusal_in, NoneUnmatched};
ghost use Rattle.signs.specs.Asked.{AskedRightly, HangsOnAsked};

use cube::{Cube, Refusal};
use std::simd::prelude::*;
use tilings::Counted;

// A case with one of its configurations; case 0 has -1. As C has it.
#[repr(C)]
#[derive(Clone, Copy)]
pub struct Family {
    pub case: i8,
    pub configuration: i8,
}

// The family of a set of corners, whose bit n is corner n.
pub fn family_of(set: u8) -> Family
    ensures table { result ≡ family_at set }
    ensures rule { result ≡ family_of set }
{
    let [case, configuration] = table::FAMILIES[set as usize];
    Family {
        case,
        configuration,
    }
}

// The set of the corners whose values are above 0, compared at once.
#[inline(always)]
pub fn corner_set(q: Cube) -> u8
    ensures set { result ≡ set_of q }
    ensures bits { BitsBelong q result }
{
    let above = f32x8::from_array(cube::values(q)).simd_gt(f32x8::splat(0.0));
    above.to_bitmask() as u8
}

// The front: refusal 3, or the choice for the family of the cube's set.
#[tactic(auto, using(crate::proofs::Hangs::hangs))]
pub fn choose_signs(q: Cube) -> Result<Counted, Refusal>
    ensures choice { said result ≡ front_of q }
    ensures only_3 { refusal_in (said result) ≡ cond (all_finite q) 0 3 }
    ensures asked { AskedRightly }
    ensures hangs { HangsOnAsked }
    ensures unmatched { NoneUnmatched q (said result) }
{
    if !cube::all_finite(q) {
        return Err(Refusal::NotFinite);
    }
    Ok(choose_finite(q))
}

// The choice of a cube whose corners are finite. An inner routine for lists.
#[inline(always)]
pub fn choose_finite(q: Cube) -> Counted
    requires { T (all_finite q) }
    ensures choice { reached result ≡ choice_for q }
    ensures few { (result.notes.unsettled ≤ 3) × (result.notes.readings ≤ 7) }
{
    let family = family_of(corner_set(q));
    choice::choose_tested(family.case, family.configuration, q)
}
