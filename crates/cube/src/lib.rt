// The cube's types: document 01, 'Places and their forms', with its refusals by name.
// `Cube` holds the eight corner values; `Face`, `EdgeNo` and `Corner` keep the three kinds of number
// apart. Public: `take_apart`, `corner_in`, `values`, `value_at`, `value_in`, `all_finite`, `number`.
#![tactic(auto)]

ghost use Rattle.std.specs.Prelude.{◌≡◌, not, T, eqb};
ghost use Rattle.cube.specs.Corners.{corners, digit_of, value_at, all_finite};
ghost use Rattle.cube.specs.Signs.{split_value};
ghost use Rattle.cube.specs.Refusals.{refusal_number};

pub mod bits;

// The corner values c0 to c7, one after the other as C has them.
#[repr(C)]
#[derive(Clone, Copy)]
pub struct Cube {
    pub c0: f32,
    pub c1: f32,
    pub c2: f32,
    pub c3: f32,
    pub c4: f32,
    pub c5: f32,
    pub c6: f32,
    pub c7: f32,
}

// A signed face number: -6..-1 and 1..6 are faces. In document 01's form, as the next two: any number may be given and refused.
#[derive(Clone, Copy)]
pub struct Face(pub i8);

// An edge number: 0..11 are edges.
#[derive(Clone, Copy)]
pub struct EdgeNo(pub i8);

// A corner number: 0..7 are corners.
#[derive(Clone, Copy)]
pub struct Corner(pub u8);

// Why something is refused, with document 01's number, which is never 9 (document 02, 'Change 12').
#[derive(Clone, Copy, PartialEq, Eq)]
pub enum Refusal {
    NoCase = 1,
    NoConfiguration = 2,
    NotFinite = 3,
    NoFace = 4,
    NoEdge = 5,
    UnevenLists = 6,
    NoRoom = 7,
    Malformed = 8,
}

pub fn number(why: Refusal) -> u8
    ensures number { result ≡ refusal_number why }
    ensures never9 { T (not (eqb result 9)) }
{
    why as u8
}

// A signed number taken apart: `Ok(k)` is k, and `Err(k)` is -1 - k, as the library's `binary_search` answers `Err` with a
// place. `u8::try_from` would give no k below 0, and this test would stand beside it.
pub fn take_apart(n: i8) -> Result<u8, u8>
    ensures { split_value result ≡ n }
{
    if n < 0 {
        Err((-1 - n) as u8)
    } else {
        Ok(n as u8)
    }
}

// The corner at place `k` of a table that is written as one number, a hex digit for each place; corner 0 past place 15.
// Total as its definition is, so this is no `Option`; the same of the next.
pub fn corner_in(column: u64, k: u32) -> Corner
    ensures { result.0 ≡ digit_of column k }
{
    if 16 <= k {
        return Corner(0);
    }
    Corner(((column >> (4 * k)) % 8) as u8)
}

// The corner values in their order, for reads at a corner that varies.
#[tactic(auto, unfolding(crate::specs::Corners::corners))]
pub fn values(q: Cube) -> [f32; 8]
    ensures { result ≡ corners q }
{
    [q.c0, q.c1, q.c2, q.c3, q.c4, q.c5, q.c6, q.c7]
}

// The value at a corner, and a NaN past corner 7: total as its definition is, so this is no `Option`.
pub fn value_at(values: &[f32; 8], k: Corner) -> f32
    ensures { result ≡ value_at values.now k.0 }
{
    let i = k.0 as usize;
    if i < 8 { values[i] } else { f32::NAN }
}

// The value at the corner that a column has at place `k`.
pub fn value_in(values: &[f32; 8], column: u64, k: u32) -> f32
    ensures { result ≡ value_at values.now (digit_of column k) }
{
    value_at(values, corner_in(column, k))
}

// Whether no corner is NaN or infinite: x - x is 0 where x is finite, and a NaN elsewhere. One comparison
// for the eight corners.
pub fn all_finite(q: Cube) -> bool
    ensures { result ≡ all_finite q }
{
    let e0 = (q.c0 - q.c0) + (q.c4 - q.c4);
    let e1 = (q.c1 - q.c1) + (q.c5 - q.c5);
    let e2 = (q.c2 - q.c2) + (q.c6 - q.c6);
    let e3 = (q.c3 - q.c3) + (q.c7 - q.c7);
    (e0 + e2) + (e1 + e3) == 0.0
}
