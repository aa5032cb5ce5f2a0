// Calls the functions of the C interface and prints what they answer: first the version, as `v` and the number.
// Then standard input has a call a line; a line with a cube has it as the text program's lines do, behind a letter
// and a space:
//   c: `mc33_choose`, by the case and the configuration; the cube is held, behind those held before
//   f: `mc33_face`, t: `mc33_trust_face`, and e: `mc33_edge`, of the number that stands for the case
//   r: `mc33_root` of c0, and `mc33_root_bits` of its bits
//   s: `mc33_choose_signs`; the cube is held too
//   l VVVV NNNN BBBB: `mc33_list` of the first VVVV values and NNNN numbers of the cubes held, with BBBB answer
//     bytes, each 200 before
//   m VALUES BYTES: `mc33_list_signs` of so many values of the cubes held, and zeros behind them, likewise
//   k SET: `mc33_family_of`
// After an empty line no cube is held. A line of less than 72 bytes without a call is printed as it is. Of an
// answer its numbers are printed in their order, and behind a list's the answer bytes; for a value x there stands
// 2 × x + 100, or 255 where that is no whole number from 0 to 254.
//
// The answers in `stdout` come from outside, by oracle/library_calls.py, which knows nothing of this code: the version
// is the header's; choices are document 01's own for its cubes and the Rust's for the cubes of mc33's sample, by signs
// with the source's CASES; families are worked out from the rule of document 02, 'Change 1', and the trust of a face
// answer from 'Change 6', in exact fractions; lists, refusals, faces, readings and roots from document 01's text.
#![tactic(auto)]

ghost use Rattle.std.specs.Prelude.{◌<◌, ◌≤◌, length};

use cube::Cube;
use output::Output;
use std::fmt::Write;
use std::{fmt, str};

// Room for standard input; what stands behind it is not read. Fixed memory, and no heap.
const FILE: usize = 131072;

// Room for 300 cubes, and for their answer bytes and two rows more.
const CUBES: usize = 300;

const VALUES: usize = 2400;

const NUMBERS: usize = 600;

const BYTES: usize = 1812;

// The cubes held: eight corner values and two numbers each, in two arrays as `mc33_list` takes two slices. What is not held any
// more stands there until another cube comes to its place.
#[derive(Drop)]
struct Held {
    corners: [f32; VALUES],
    numbers: [i8; NUMBERS],
    cubes: usize,
}

// How many values, numbers and answer bytes a line asks a list of.
#[derive(Clone, Copy)]
struct Sizes {
    values: usize,
    numbers: usize,
    bytes: usize,
}

impl Held {
    fn none() -> Held {
        Held {
            corners: [0.0; VALUES],
            numbers: [0; NUMBERS],
            cubes: 0,
        }
    }

    // Where there is room for it.
    fn hold(&mut self, case: i8, configuration: i8, q: Cube) {
        let n = self.cubes;
        if CUBES <= n {
            return;
        }
        self.corners[8 * n..8 * n + 8].copy_from_slice(&cube::values(q));
        self.numbers[2 * n] = case;
        self.numbers[2 * n + 1] = configuration;
        self.cubes = n + 1;
    }

    // The list of so many values and numbers; nothing where there is no room for them.
    fn list(&self, sizes: Sizes) -> fmt::Result {
        let mut answers = [200u8; BYTES];
        if let (Some(corners), Some(numbers), Some(answers)) = (
            self.corners.get(..sizes.values),
            self.numbers.get(..sizes.numbers),
            answers.get_mut(..sizes.bytes),
        ) {
            let outcome = mc33_c::mc33_list(corners, numbers, answers);
            write!(Output, "l {} {}:", outcome.refusal, outcome.place)?;
            return print_numbers(answers);
        }
        Ok(())
    }

    // The list of so many values by signs: of the cubes held, and zeros behind them.
    fn list_signs(&self, values: usize, bytes: usize) -> fmt::Result {
        let mut corners = self.corners;
        for value in corners.iter_mut().skip(8usize.saturating_mul(self.cubes)) {
            *value = 0.0;
        }
        let mut answers = [200u8; BYTES];
        if let (Some(corners), Some(answers)) = (corners.get(..values), answers.get_mut(..bytes)) {
            let outcome = mc33_c::mc33_list_signs(corners, answers);
            write!(Output, "m {} {}:", outcome.refusal, outcome.place)?;
            return print_numbers(answers);
        }
        Ok(())
    }

    // The call of a line with a cube; a choice's cube is held.
    fn call(&mut self, text: &[u8]) -> fmt::Result
        requires { 72 ≤ length text.now }
    {
        let Some(line) = line::parse_line(&text[2..]) else {
            return Ok(());
        };
        match text[0] {
            b'f' => face(line.case, line.cube),
            b't' => trust(line.case, line.cube),
            b'e' => edge(line.case, line.cube),
            b'r' => root(
                line.cube.c0,
                hex_digits::word(text, text.len() - 71).unwrap_or(0),
            ),
            letter => {
                choose(letter, line)?;
                if letter == b'c' || letter == b's' {
                    self.hold(line.case, line.configuration, line.cube);
                }
                Ok(())
            }
        }
    }

    fn turn(&mut self, line: &[u8]) -> fmt::Result {
        match line.first() {
            None => {
                self.cubes = 0;
                Ok(())
            }
            Some(b'l') => match sizes_of(line) {
                Some(sizes) => self.list(sizes),
                None => Ok(()),
            },
            Some(b'm') => match two_of(line) {
                Some((values, bytes)) => self.list_signs(values, bytes),
                None => Ok(()),
            },
            Some(b'k') => family(line),
            Some(_) if 72 <= line.len() => self.call(line),
            Some(_) => {
                io::write_all(1, line);
                writeln!(Output)
            }
        }
    }
}

fn digit(b: u8) -> usize
    ensures { result < 16 }
{
    usize::from(b % 16)
}

fn four([a, b, c, d]: [u8; 4]) -> usize {
    1000 * digit(a) + 100 * digit(b) + 10 * digit(c) + digit(d)
}

// The numbers behind a list's letter, four digits each.
fn sizes_of(line: &[u8]) -> Option<Sizes> {
    let [_, _, a, b, c, d, _, e, f, g, h, _, i, j, k, l] = *line.first_chunk::<16>()?;
    Some(Sizes {
        values: four([a, b, c, d]),
        numbers: four([e, f, g, h]),
        bytes: four([i, j, k, l]),
    })
}

// The numbers behind the letter of a list by signs.
fn two_of(line: &[u8]) -> Option<(usize, usize)> {
    let mut words = str::from_utf8(line).ok()?.split(' ');
    if words.next()? != "m" {
        return None;
    }
    let values = words.next()?.parse().ok()?;
    let bytes = words.next()?.parse().ok()?;
    Some((values, bytes))
}

// The number behind the letter of a family's line.
fn set_of(line: &[u8]) -> Option<u8> {
    let mut words = str::from_utf8(line).ok()?.split(' ');
    let _letter = words.next()?;
    words.next()?.parse().ok()
}

// A space and a number each, and the line's end.
fn print_numbers(numbers: &[u8]) -> fmt::Result {
    for n in numbers {
        write!(Output, " {n}")?;
    }
    writeln!(Output)
}

// 2 × x + 100, or 255 where that is no whole number from 0 to 254.
fn code(x: f32) -> u8 {
    (0..255u8)
        .find(|n| f32::from(*n) == x + x + 100.0)
        .unwrap_or(255)
}

fn family(line: &[u8]) -> fmt::Result {
    let Some(set) = set_of(line) else {
        return Ok(());
    };
    let family = mc33_c::mc33_family_of(set);
    writeln!(Output, "k {} {}", family.case, family.configuration)
}

fn choose(letter: u8, line: line::Line) -> fmt::Result {
    let r = if letter == b's' {
        mc33_c::mc33_choose_signs(line.cube)
    } else {
        mc33_c::mc33_choose(line.case, line.configuration, line.cube)
    };
    io::write_all(1, &[letter]);
    print_numbers(&[
        r.refusal,
        r.code,
        r.row,
        r.column,
        r.centre,
        r.unsettled,
        r.unmatched,
        r.readings,
    ])
}

fn face(face: i8, q: Cube) -> fmt::Result {
    let r = mc33_c::mc33_face(q, face);
    writeln!(Output, "f {} {}", r.refusal, r.answer)
}

fn trust(face: i8, q: Cube) -> fmt::Result {
    let r = mc33_c::mc33_trust_face(q, face);
    writeln!(Output, "t {} {} {}", r.refusal, r.answer, r.trust)
}

fn edge(edge: i8, q: Cube) -> fmt::Result {
    let r = mc33_c::mc33_edge(q, edge);
    writeln!(
        Output,
        "e {} {} {} {}",
        r.refusal,
        r.kind,
        code(r.t),
        code(r.product)
    )
}

fn root(x: f32, bits: u32) -> fmt::Result {
    writeln!(
        Output,
        "r {} {:08x}",
        code(mc33_c::mc33_root(x)),
        mc33_c::mc33_root_bits(bits)
    )
}

fn all(file: &[u8]) -> fmt::Result {
    let mut held = Held::none();
    for line in file.split(|b| *b == b'\n') {
        held.turn(line)?;
    }
    Ok(())
}

fn main() {
    let _ = writeln!(Output, "v {}", mc33_c::mc33_version());
    let mut file = [0u8; FILE];
    let n = io::read_full(0, &mut file);
    let _ = all(&file[..n]);
}
