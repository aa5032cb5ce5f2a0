// Feeds many small inputs through the text program's library. Standard input has a test a line: an input,
// ` => ` and the output that it must give, both with escapes; a line that begins with `#` says what is tried,
// and an empty line is nothing. Each input is run as one block, a byte at a time and, up to 400 bytes, cut in
// two at every byte. Prints the number of each line that differs, then how many inputs, runs and differing
// inputs there were. A line of another form counts as one that differs.
#![tactic(auto)]

mod decode;
mod run;

ghost use Rattle.std.specs.Prelude.{◌≤◌, length};

use arrayvec::ArrayVec;
use output::Output;
use run::{INPUT, OUT};
use std::fmt::{self, Write};

// Room for the tests, and one byte more. Fixed memory, and no heap.
const FILE: usize = 65537;

// What a line came to: nothing, or a test, in so many runs. A line of another form differs in none, so no flag beside a
// number would do.
#[derive(Clone, Copy)]
enum Tried {
    Nothing,
    Agrees(u64),
    Differs(u64),
}

// How many inputs and runs there were, and how many inputs differ.
#[derive(Drop)]
struct Tally {
    inputs: u64,
    runs: u64,
    differ: u64,
}

// The cuts in two that are tried stand before this place.
fn cuts(n: usize) -> usize
    ensures { (result ≤ n) × (result ≤ 400) }
{
    if n <= 400 { n } else { 0 }
}

// One input and the output that it must give.
fn test(input: &[u8], output: &[u8], out: &mut ArrayVec<u8, OUT>) -> Tried
    requires { length input.now ≤ 131072 }
{
    let cuts = cuts(input.len());
    let mut agree = run::agrees(input, output, INPUT, INPUT, out)
        & run::agrees(input, output, 1, 1, out);
    for cut in 1..cuts {
        agree = agree & run::agrees(input, output, cut, INPUT, out);
    }
    let runs = 2 + cuts.saturating_sub(1) as u64;
    if agree {
        return Tried::Agrees(runs);
    }
    Tried::Differs(runs)
}

fn try_line(line: &[u8], room: &mut ArrayVec<u8, INPUT>, out: &mut ArrayVec<u8, OUT>) -> Tried {
    if line.is_empty() || line.starts_with(b"#") {
        return Tried::Nothing;
    }
    decoded(line, room, out).unwrap_or(Tried::Differs(0))
}

// The test of a line; none where it has another form.
fn decoded(
    line: &[u8],
    room: &mut ArrayVec<u8, INPUT>,
    out: &mut ArrayVec<u8, OUT>,
) -> Option<Tried> {
    let arrow = line.array_windows::<4>().position(|four| four == b" => ")?;
    room.clear();
    decode::decode(&line[..arrow], room)?;
    let n = room.len();
    decode::decode(&line[arrow + 4..], room)?;
    let (input, output) = room.as_slice().split_at(n);
    Some(test(input, output, out))
}

impl Tally {
    fn count(&mut self, runs: u64, differ: bool) {
        self.inputs = self.inputs.wrapping_add(1);
        self.runs = self.runs.wrapping_add(runs);
        self.differ = self.differ.wrapping_add(differ as u64);
    }
}

fn all(file: &[u8]) -> fmt::Result {
    let mut room = ArrayVec::new();
    let mut out = ArrayVec::new();
    let mut tally = Tally {
        inputs: 0,
        runs: 0,
        differ: 0,
    };
    for (k, line) in file.split(|b| *b == b'\n').enumerate() {
        match try_line(line, &mut room, &mut out) {
            Tried::Nothing => {}
            Tried::Agrees(runs) => tally.count(runs, false),
            Tried::Differs(runs) => {
                writeln!(Output, "line {} differs", k + 1)?;
                tally.count(runs, true);
            }
        }
    }
    writeln!(
        Output,
        "{} inputs, {} runs, {} differ",
        tally.inputs, tally.runs, tally.differ
    )
}

fn read(file: &mut [u8; FILE]) -> usize
    ensures { result ≤ 65537 }
{
    io::read_full(0, file)
}

fn main() {
    let mut file = [0u8; FILE];
    let n = read(&mut file);
    if n == FILE {
        let _ = writeln!(Output, "more than 65,536 bytes of tests");
        return;
    }
    let _ = all(&file[..n]);
}
