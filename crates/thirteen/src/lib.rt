// The case-13 test: document 01, 'Case-13 test'. An inner routine for the choice, which has tested its
// cube.
#![tactic(auto)]

ghost use Rattle.std.specs.Prelude.{◌≡◌};
ghost use Rattle.thirteen.specs.Thirteen.{within, both_within, answer_at, case13_of};

use cube::{Cube, EdgeNo};
use edge::Moves;

fn is_within(x: f32) -> bool
    ensures { result ≡ within x }
{
    (0.0 < x) & (x < 1.0)
}

// Whether x and y at t lie strictly within 0 and 1. The four places by name, as the definition has them.
fn both_within(m: Moves, t: f32) -> bool
    ensures { result ≡ both_within m t }
{
    let w1 = edge::place_at(m.u1, m.g1, t);
    let w2 = edge::place_at(m.u2, m.g2, t);
    let w3 = edge::place_at(m.u3, m.g3, t);
    let w4 = edge::place_at(m.u4, m.g4, t);
    let n = w1 + w3 - w2 - w4;
    is_within((w1 - w4) / n) & is_within((w1 - w2) / n)
}

// False only if both t and what is found at both lie strictly within 0 and 1.
fn answer_at(m: Moves, t1: f32, t2: f32) -> bool
    ensures { result ≡ answer_at m t1 t2 }
{
    if is_within(t1) & is_within(t2) {
        return !(both_within(m, t1) & both_within(m, t2));
    }
    true
}

// The case-13 test: a, b and the places as edge 0's, whose u1 to u4 are c1, c5, c6 and c2.
pub fn interior_test_case13(q: Cube) -> bool
    ensures { result ≡ case13_of q }
{
    let values = cube::values(q);
    let m = edge::moves_of(&values, EdgeNo(0));
    let a = edge::a_of(m);
    let b = edge::b_of(m);
    let c = m.u1 * m.u3 - m.u2 * m.u4;
    let root = root::root(b * b - 4.0 * a * c);
    answer_at(m, (-b + root) / (a + a), (-b - root) / (a + a))
}
