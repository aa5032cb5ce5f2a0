// The diagonal pick and the interior test: document 01, 'Diagonal pick' and 'Interior test'. Inner
// routines for the choice, which has tested its cube. Public: `test_interior`, for any number of faces, and
// `test_interior_three`.
#![tactic(auto)]

ghost use Rattle.std.specs.Prelude.{◌≡◌, ℕ, ◌+◌, ◌*◌, ◌≤◌, [], ◌∷◌, map, T, pos};
ghost use Rattle.binary32.specs.Numbers.{f32};
ghost use Rattle.edge.specs.Edge.{quotients, is_edge};
ghost use Rattle.edge.specs.Moves.{read_of};
ghost use Rattle.interior.specs.Pick.{IsAmbiguousFace, pick_with};
ghost use Rattle.interior.specs.Diagonals.{diagonals_of, held_by, set_of};
ghost use Rattle.interior.specs.Interior.{seen_as, joined, counted, inside_of};

mod faces;

use cube::bits::{bit, three};
use cube::{Cube, EdgeNo};
use edge::Moves;
pub use faces::AmbiguousFace;
use notes::Notes;

// The signed number s of an interior test, which document 01's TEST tables give.
#[derive(Clone, Copy)]
pub struct Side(pub i8);

// What an interior test sees: whether a reading's value was 1, and what was counted.
#[derive(Clone, Copy)]
pub struct Sight {
    pub hit: bool,
    pub notes: Notes,
}

// Which of the pairs (0,6), (1,7), (2,4) and (3,5) match.
#[derive(Clone, Copy)]
struct Diagonals {
    pub from0: bool,
    pub from1: bool,
    pub from2: bool,
    pub from3: bool,
}

#[tactic(auto, using(crate::proofs::Picks::all_pairs))]
fn diagonals_of(q: Cube, side: Side) -> Diagonals
    ensures { result ≡ diagonals_of q side.0 }
{
    let s = side.0 as f32;
    Diagonals {
        from0: (q.c0 * s > 0.0) & (q.c6 * s > 0.0),
        from1: (q.c1 * s > 0.0) & (q.c7 * s > 0.0),
        from2: (q.c2 * s > 0.0) & (q.c4 * s > 0.0),
        from3: (q.c3 * s > 0.0) & (q.c5 * s > 0.0),
    }
}

// The pairs that match as a number, a bit for each first corner.
#[tactic(auto, unfolding(crate::specs::Diagonals::set_of, cube::specs::Bits::number_of))]
fn set_of(d: Diagonals) -> u32
    ensures { (result ≤ 15) × (result ≡ set_of d) }
{
    three(d.from0, d.from1, d.from2) + 8 * bit(d.from3)
}

// The edges that a face's pairs lead to, by the set that matches.
const EDGES_13: [i8; 16] = [0, 5, 4, 5, 7, 7, 7, 7, 6, 6, 6, 6, 7, 7, 7, 7];

const EDGES_24: [i8; 16] = [0, 3, 0, 3, 1, 3, 1, 3, 2, 3, 2, 3, 2, 3, 2, 3];

const EDGES_56: [i8; 16] = [0, 8, 9, 9, 10, 10, 10, 10, 11, 11, 11, 11, 11, 11, 11, 11];

static EDGES: [[i8; 16]; 6] = [EDGES_13, EDGES_24, EDGES_13, EDGES_24, EDGES_56, EDGES_56];

// The diagonal pick, from the pairs that match: with those of `diagonals_of`, document 01's. Edge 0 may be picked by a
// match, or be left over where there is none: it is read either way, so this is no Option. (With one the compiler made a
// branch of each pick, which case 12 mispredicted 0.4 times a choice.)
fn interior_ambiguity(d: Diagonals, face: AmbiguousFace) -> EdgeNo
    ensures pick { result.0 ≡ pos (pick_with (held_by d) face.n).edge }
    ensures edge { T (is_edge result.0) }
{
    EdgeNo(EDGES[(face.n - 1) as usize][set_of(d) as usize])
}

// Whether any pair matches, whichever face the pick is made for: each has the same four.
#[tactic(auto, using(crate::proofs::Picks::matched_for))]
fn any_match(d: Diagonals) -> bool
    ensures { (n : ℕ) → IsAmbiguousFace n → result ≡ (pick_with (held_by d) n).matched }
{
    set_of(d) != 0
}

// What is read by the moves of an edge, and whether a pair matched where the edge was picked: whether the reading's
// value is 1, and what it and the pick count. By a, t and the product themselves: of an `edge::Reading`, made and taken
// apart, the compiler put the product behind a branch, which case 4 mispredicted 0.4 times a choice.
fn look(m: Moves, matched: bool) -> Sight
    ensures { result ≡ seen_as f32 quotients matched (read_of m) }
{
    let a = edge::a_of(m);
    let t = -edge::b_of(m) / (2.0 * a);
    let product = edge::product_at(m, t);
    let rising = a > 0.0;
    let beyond = (t < 0.0) | (t > 1.0);
    let past = rising | beyond;
    let below = product < 0.0;
    let settled = past | below | (product > 0.0);
    Sight {
        hit: past | below,
        notes: notes::look(!settled, matched),
    }
}

// Two sights as one: true if any, the counts added.
#[tactic(auto, unfolding(crate::specs::Interior::joined))]
fn join(x: Sight, y: Sight) -> Sight
    requires { counted x + counted y ≤ 255 }
    ensures { result ≡ joined x y }
{
    Sight {
        hit: x.hit | y.hit,
        notes: notes::add(x.notes, y.notes),
    }
}

// The interior test for ambiguous faces. All readings are made.
pub fn test_interior<const N: usize>(q: Cube, faces: [AmbiguousFace; N], side: Side) -> Sight
    requires { 3 * N ≤ 255 }
    ensures seen { result ≡ inside_of q (map (λ face. face.n) faces.entry) side.0 }
    ensures few { counted result ≤ 3 * N }
{
    let values = cube::values(q);
    let d = diagonals_of(q, side);
    let matched = any_match(d);
    let mut sofar = Sight {
        hit: false,
        notes: notes::none(),
    };
    for face in faces {
        let edge = interior_ambiguity(d, face);
        sofar = join(sofar, look(edge::moves_of(&values, edge), matched));
    }
    sofar
}

// For faces 1, 2 and 5, of cases 4 and 7.
pub fn test_interior_three(q: Cube, side: Side) -> Sight
    ensures seen { result ≡ inside_of q (1 ∷ 2 ∷ 5 ∷ []) side.0 }
    ensures few { counted result ≤ 9 }
{
    let faces = [
        AmbiguousFace { n: 1 },
        AmbiguousFace { n: 2 },
        AmbiguousFace { n: 5 },
    ];
    test_interior(q, faces, side)
}
