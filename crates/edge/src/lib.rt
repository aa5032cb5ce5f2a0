// The edge reading: document 01, 'Edge reading'. Public: `interior_ambiguity_verification`, which
// refuses; for callers that have tested their cube and edge `moves_of`, the moves of an edge, with `a_of`, `b_of` and
// `place_at`, which the case-13 test needs, and `product_at`, for the interior test.
#![tactic(auto)]

ghost use Rattle.std.specs.Prelude.{◌≡◌, ◌<◌};
ghost use Rattle.std.specs.List.{All};
ghost use Rattle.std.specs.Float.{binary32};
ghost use Rattle.std.specs.Float.Ieee.{add, sub, mul};
ghost use Rattle.binary32.specs.Numbers.{f32};
ghost use Rattle.cube.specs.Corners.{value_at};
ghost use Rattle.edge.specs.Edge.{a_of, b_of, told, said, edge_reading_of};
ghost use Rattle.edge.specs.Columns.{place_of, row_of};
ghost use Rattle.edge.specs.Moves.{moves_of, product_of, read_of};

use cube::{Cube, EdgeNo, Refusal};

// What is read at an edge: `Rising` where a > 0, `Beyond` with t where t < 0 or t > 1, `Crossed` with t and the
// product, or `Blank` where t or the product is NaN. Document 01's form.
#[derive(Clone, Copy)]
pub enum Reading {
    Rising,
    Beyond(f32),
    Crossed(f32, f32),
    Blank,
}

// The four moves u→v of an edge: the value at u, and g = v - u. Fields and no array, since each of the
// definitions names u1 to g4, and so would the code.
#[derive(Clone, Copy)]
pub struct Moves {
    pub u1: f32,
    pub u2: f32,
    pub u3: f32,
    pub u4: f32,
    pub g1: f32,
    pub g2: f32,
    pub g3: f32,
    pub g4: f32,
}

// The moves u→v of each edge: the corners of each.
static MOVES: [[(u8, u8); 4]; 12] = [
    [(1, 0), (5, 4), (6, 7), (2, 3)],
    [(2, 3), (1, 0), (5, 4), (6, 7)],
    [(3, 2), (7, 6), (4, 5), (0, 1)],
    [(0, 1), (3, 2), (7, 6), (4, 5)],
    [(1, 2), (0, 3), (4, 7), (5, 6)],
    [(0, 3), (1, 2), (5, 6), (4, 7)],
    [(3, 0), (7, 4), (6, 5), (2, 1)],
    [(2, 1), (3, 0), (7, 4), (6, 5)],
    [(0, 4), (3, 7), (2, 6), (1, 5)],
    [(1, 5), (0, 4), (3, 7), (2, 6)],
    [(2, 6), (1, 5), (0, 4), (3, 7)],
    [(3, 7), (2, 6), (1, 5), (0, 4)],
];

// The edge's place in the table, where there is such an edge.
fn place(edge: EdgeNo) -> Option<usize>
    ensures { result ≡ place_of edge.0 }
{
    match usize::try_from(edge.0) {
        Ok(k) if k < 12 => Some(k),
        _ => None,
    }
}

// The corners of an edge's moves. A number that is no edge moves from corner 0 to itself four times.
fn row(edge: EdgeNo) -> [(u8, u8); 4]
    ensures row { result ≡ row_of edge.0 }
    ensures corners { All (λ m. (m.0 < 8) × (m.1 < 8)) result }
{
    match place(edge) {
        Some(k) => MOVES[k],
        None => [(0, 0); 4],
    }
}

// The value at a move's u, and g = v - u.
#[tactic(auto, using(cube::proofs::AtCorners::at_corner))]
fn value_and_g(values: &[f32; 8], u: u8, v: u8) -> (f32, f32)
    requires { (u < 8) × (v < 8) }
    ensures u { result.0 ≡ value_at values.now u }
    ensures g { result.1 ≡ sub binary32 (value_at values.now v) (value_at values.now u) }
{
    let at_u = values[u as usize];
    (at_u, values[v as usize] - at_u)
}

// The moves of an edge, by the corners' values.
#[tactic(auto, unfolding(crate::specs::Moves::moves_of))]
pub fn moves_of(values: &[f32; 8], edge: EdgeNo) -> Moves
    ensures { result ≡ moves_of (value_at values.now) edge.0 }
{
    let [(u1, v1), (u2, v2), (u3, v3), (u4, v4)] = row(edge);
    let (u1, g1) = value_and_g(values, u1, v1);
    let (u2, g2) = value_and_g(values, u2, v2);
    let (u3, g3) = value_and_g(values, u3, v3);
    let (u4, g4) = value_and_g(values, u4, v4);
    Moves {
        u1,
        u2,
        u3,
        u4,
        g1,
        g2,
        g3,
        g4,
    }
}

// a = g1×g3 - g2×g4
pub fn a_of(m: Moves) -> f32
    ensures { result ≡ a_of f32 m.g1 m.g2 m.g3 m.g4 }
{
    m.g1 * m.g3 - m.g2 * m.g4
}

// b = u3×g1 + u1×g3 - u4×g2 - u2×g4, left to right
pub fn b_of(m: Moves) -> f32
    ensures { result ≡ b_of f32 m.u1 m.u2 m.u3 m.u4 m.g1 m.g2 m.g3 m.g4 }
{
    m.u3 * m.g1 + m.u1 * m.g3 - m.u4 * m.g2 - m.u2 * m.g4
}

// The place w = u + g×t of a move.
pub fn place_at(u: f32, g: f32, t: f32) -> f32
    ensures { result ≡ add binary32 u (mul binary32 g t) }
{
    u + g * t
}

// product = w1×w3 - w2×w4, at t; the four places by name, as the definition has them
pub fn product_at(m: Moves, t: f32) -> f32
    ensures { result ≡ product_of m t }
{
    let w1 = place_at(m.u1, m.g1, t);
    let w2 = place_at(m.u2, m.g2, t);
    let w3 = place_at(m.u3, m.g3, t);
    let w4 = place_at(m.u4, m.g4, t);
    w1 * w3 - w2 * w4
}

// The reading of an edge's moves. The first test asks all, so that nothing is computed behind a branch.
fn read(m: Moves) -> Reading
    ensures { told result ≡ read_of m }
{
    let a = a_of(m);
    let t = -b_of(m) / (2.0 * a);
    let product = product_at(m, t);
    let rising = a > 0.0;
    let beyond = (t < 0.0) | (t > 1.0);
    let past = rising | beyond;
    let blank = product.is_nan();
    if !(past | blank) {
        return Reading::Crossed(t, product);
    }
    if !past {
        return Reading::Blank;
    }
    if rising {
        return Reading::Rising;
    }
    Reading::Beyond(t)
}

// The edge reading: refusal 5 where the number is no edge, 3 where a corner is not finite, or the reading.
#[tactic(auto, using(crate::proofs::Places::by_no_edge, crate::proofs::Places::by_not_finite, crate::proofs::Places::by_reading))]
pub fn interior_ambiguity_verification(q: Cube, edge: EdgeNo) -> Result<Reading, Refusal>
    ensures { said result ≡ edge_reading_of q edge.0 }
{
    if place(edge).is_none() {
        return Err(Refusal::NoEdge);
    }
    if !cube::all_finite(q) {
        return Err(Refusal::NotFinite);
    }
    Ok(read(moves_of(&cube::values(q), edge)))
}
