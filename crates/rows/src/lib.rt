// One cube of a list and its row of answer bytes: document 01, 'List', with the six bytes of document 02, Change 10.
// Inner routines, for what makes rows and is proved to meet what they require.
#![tactic(auto)]

ghost use Rattle.std.specs.Prelude.{◌≡◌, ◌+◌, ◌*◌, ◌/◌, ◌≤◌, ◌<◌, ℕ, min, length};
ghost use Rattle.tilings.specs.Plan.{Reached};
ghost use Rattle.tilings.specs.Answers.{reached};
ghost use Rattle.put.specs.Placed.{placed};
ghost use Rattle.reader.specs.Reader.{cube_at};
ghost use Rattle.choice.specs.Choice.{number_or_0};
ghost use Rattle.rows.specs.Rows.{width, refusal_at, choice_at, bytes_of};
ghost use Rattle.rows.specs.Results.{bytes_in, filled};

use cube::{Cube, Refusal};
use notes::Notes;
use tilings::{Choice, Counted};

// The answer bytes of a cube.
pub const WIDTH: usize = 6;

// Why a list is refused, and the place of its cube; place 0 where it is none's fault, as C's record has it.
#[derive(Clone, Copy)]
pub struct ListRefused {
    pub why: Refusal,
    pub place: usize,
}

// A cube's answer bytes. `rest` is the centre and the unsettled number.
#[derive(Clone, Copy)]
pub struct Row {
    pub code: u8,
    pub row: u8,
    pub column: u8,
    pub rest: u8,
    pub unmatched: u8,
    pub readings: u8,
}

// A list of cubes, by why each is refused and by its choice. That cube i is there is asked by each method: a fact in
// the type, on all lengths, would ask more of callers.
pub trait CubeList: Copy {
    // how many cubes there are
    ghost count: { Self → ℕ };

    // the number of cube i's refusal, 0 where there is none
    ghost refusal: { Self → ℕ → ℕ };

    // the choice for cube i
    ghost choice: { Self → ℕ → Reached };

    // Why cube i is refused, if it is.
    fn refusal_at(self, i: usize) -> Option<Refusal>
        requires { i < count self }
        ensures { number_or_0 result ≡ refusal self i };

    // The row of cube i, which is not refused.
    fn row_at(self, i: usize) -> Row
        requires place { i < count self }
        requires made { refusal self i ≡ 0 }
        ensures { bytes_in result ≡ bytes_of (choice self i) };
}

// The cubes of a list with their numbers: eight corner values a cube, and two numbers, its case and its configuration,
// in two slices as C lends them.
#[derive(Clone, Copy)]
pub struct Cubes<'a> {
    pub corners: &'a [f32],
    pub numbers: &'a [i8],
}

impl CubeList for Cubes<'_> {
    ghost count = { λ q. min (length q.corners.now / 8) (length q.numbers.now / 2) };

    ghost refusal = { λ q. refusal_at q.corners.now q.numbers.now };

    ghost choice = { λ q. choice_at q.corners.now q.numbers.now };

    fn refusal_at(self, i: usize) -> Option<Refusal> {
        choice::refusal(
            self.numbers[2 * i],
            self.numbers[2 * i + 1],
            cube_at(self.corners, i),
        )
    }

    fn row_at(self, i: usize) -> Row {
        let cube = cube_at(self.corners, i);
        row_of(choice::choose_tested(self.numbers[2 * i], self.numbers[2 * i + 1], cube))
    }
}

// Cube i of the lent corners. The list has it, so the reader gives one.
pub fn cube_at(corners: &[f32], i: usize) -> Cube
    requires { i < length corners.now / 8 }
    ensures { result ≡ cube_at corners.now i }
{
    reader::read_at(corners, i).unwrap()
}

fn filled(code: u8, row: u8, column: u8, rest: u8, notes: Notes) -> Row
    requires { notes.readings ≤ 255 }
    ensures { result ≡ filled code row column rest notes }
{
    Row {
        code,
        row,
        column,
        rest,
        unmatched: notes.unmatched,
        readings: notes.readings as u8,
    }
}

// The row of a choice. A match of its own, as C's record (`mc33_c`) and the line (`answer`) have theirs.
pub fn row_of(r: Counted) -> Row
    requires { (r.notes.unsettled ≤ 3) × (r.notes.readings ≤ 7) }
    ensures { bytes_in result ≡ bytes_of (reached r) }
{
    let Counted { choice, notes } = r;
    match choice {
        Choice::Empty => filled(0, 0, 0, 0, notes),
        Choice::Untiled(c, sub) => filled(255, c, sub, 0, notes),
        Choice::Tiled(code, row, column, centre) => filled(
            code,
            row,
            column,
            centre as u8 + 2 * notes.unsettled,
            notes,
        ),
    }
}

// Puts the row of cube i, byte by byte: copied from an array of the six, the machine waited for its bytes to be stored.
#[tactic(auto, using(crate::proofs::Stored::six_stored))]
pub fn put_row(r: Row, answers: &mut [u8], i: usize)
    requires { width * i + width ≤ length answers.old }
    ensures { answers.new ≡ placed answers.old (width * i) (bytes_in r) }
{
    let at = WIDTH * i;
    answers[at] = r.code;
    answers[at + 1] = r.row;
    answers[at + 2] = r.column;
    answers[at + 3] = r.rest;
    answers[at + 4] = r.unmatched;
    answers[at + 5] = r.readings;
}
