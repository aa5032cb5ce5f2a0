// Runs the face test and the comparison of two cubes on a few cubes of document 01 and prints what
// each says.
#![tactic(auto)]

use cube::{Cube, Face, Refusal};
use output::Output;
use std::fmt::{self, Write};

// A line: an answer, that two faces do not meet, or a refusal.
#[derive(Clone, Copy)]
struct Said(Result<Option<bool>, Refusal>);

impl fmt::Display for Said {
    fn fmt<W: fmt::Write>(&self, f: &mut fmt::Formatter<W>) -> fmt::Result {
        match self.0 {
            Ok(Some(true)) => writeln!(f, "yes"),
            Ok(Some(false)) => writeln!(f, "no"),
            Ok(None) => writeln!(f, "apart"),
            Err(why) => writeln!(f, "refused {}", cube::number(why)),
        }
    }
}

// The cube with these values at corners 0 to 3 and 4 to 7.
fn of_layers([c0, c1, c2, c3]: [f32; 4], [c4, c5, c6, c7]: [f32; 4]) -> Cube {
    Cube {
        c0,
        c1,
        c2,
        c3,
        c4,
        c5,
        c6,
        c7,
    }
}

// A cube with these values at corners 0 to 3 and -1 above.
fn low(values: [f32; 4]) -> Cube {
    of_layers(values, [-1.0; 4])
}

// The cube below that one: the same values above, and 1 below.
fn below(values: [f32; 4]) -> Cube {
    of_layers([1.0; 4], values)
}

// Document 01's cubes of case 3, configuration 0, whose face number is 5, and of configuration 12,
// whose face number is -6; then the refusals.
fn tests() -> fmt::Result {
    writeln!(Output, "face answers")?;
    for (q, n) in [
        (low([2.0, -1.0, 2.0, -1.0]), 5),
        (low([1.0, -2.0, 1.0, -2.0]), 5),
        (low([1.0, -1.0, 1.0, -1.0]), 5),
        (low([1.0, -1.00000011920929, 1.0, -1.0]), 5),
        (low([1.0, -1.0, 0.999999940395355, -1.0]), 5),
        (below([1.0, -1.0, 1.0, -1.0]), -6),
        (low([1.0, -1.0, 1.0, -1.0]), 0),
        (low([1.0, -1.0, 1.0, -1.0]), -7),
        (low([1.0, f32::INFINITY, 1.0, -1.0]), 6),
    ] {
        write!(Output, "{}", Said(face::test_face(q, Face(n)).map(Some)))?;
    }
    Ok(())
}

// Whether two cubes, one below the other, answer alike: with the same sign, with other signs, at a tie, out of
// range, and at faces that do not meet.
fn comparisons() -> fmt::Result {
    writeln!(Output, "equal answers")?;
    for (values, n, p) in [
        ([2.0, -1.0, 2.0, -1.0], 5, 6),
        ([2.0, -1.0, 2.0, -1.0], 5, -6),
        ([1.0, -1.0, 1.0, -1.0], -5, -6),
        ([0.0, -1.0, 2.0, -1.0], 5, 6),
        ([2.0, -1.0, 2.0, -1.0], 5, 3),
        ([2.0, -1.0, 2.0, -1.0], 5, 7),
    ] {
        let said = meeting::compare_faces(low(values), Face(n), below(values), Face(p));
        write!(Output, "{}", Said(said))?;
    }
    Ok(())
}

fn all() -> fmt::Result {
    tests()?;
    comparisons()
}

fn main() {
    let _ = all();
}
