// A list of corners handed out cube by cube: document 01, 'Places and their forms', the reader that
// holds the lent corner list and its place. A place counts cubes. No routine changes a `Reader`: `here`
// answers for its place, and `moved` makes one at another place.
// Public: `new`, `here`, `moved`, `read_at`.
#![tactic(auto)]

ghost use Rattle.std.specs.Prelude.{◌≡◌};
ghost use Rattle.reader.specs.Reader.{standing, step_at};

use cube::Cube;

#[derive(Clone, Copy)]
pub struct Reader<'a> {
    pub corners: &'a [f32],
    pub at: usize,
}

// Why no cube stands at a place: past the last whole cube is the list's end, or a part of a cube where the
// list's length is no multiple of 8.
#[derive(Clone, Copy, PartialEq, Eq)]
pub enum Past {
    Part,
    End,
}

// What stands at a place of a list: `here` hands its list and place to this.
#[tactic(auto, unfolding(crate::specs::Reader::step_at, crate::specs::Reader::cube_at))]
fn step_at(corners: &[f32], at: usize) -> Result<Cube, Past>
    ensures { standing result ≡ step_at corners.now at }
{
    let n = corners.len() / 8;
    if at < n {
        let k = 8 * at;
        return Ok(Cube {
            c0: corners[k],
            c1: corners[k + 1],
            c2: corners[k + 2],
            c3: corners[k + 3],
            c4: corners[k + 4],
            c5: corners[k + 5],
            c6: corners[k + 6],
            c7: corners[k + 7],
        });
    }
    if corners.len() % 8 == 0 {
        return Err(Past::End);
    }
    Err(Past::Part)
}

pub fn new<'a>(corners: &'a [f32]) -> Reader<'a>
    ensures { (result.corners ≡ corners.entry) × (result.at ≡ 0) }
{
    Reader { corners, at: 0 }
}

pub fn here<'a>(r: Reader<'a>) -> Result<Cube, Past>
    ensures { standing result ≡ step_at r.entry.corners.now r.entry.at }
{
    step_at(r.corners, r.at)
}

pub fn moved<'a>(r: Reader<'a>, at: usize) -> Reader<'a>
    ensures { (result.corners ≡ r.entry.corners) × (result.at ≡ at) }
{
    Reader {
        corners: r.corners,
        at,
    }
}

// The way in for a caller with a plain list and a place.
pub fn read_at(corners: &[f32], at: usize) -> Result<Cube, Past>
    ensures stands { standing result ≡ step_at corners.now at }
{
    here(moved(new(corners), at))
}
