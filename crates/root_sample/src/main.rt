// Compares the proved root with the machine's on the sample that oracle/root.sh makes: lines of a
// pattern, a space and its root's pattern, eight lower-case hex digits each. Prints how many lines
// there were and how many differ; a line of any other form counts as one that differs.
#![tactic(auto)]

use output::Output;
use std::fmt::Write;

// Whether the line has a pattern and its root.
fn agrees(line: &[u8; 18]) -> bool {
    let (Some(bits), Some(root)) = (hex_digits::word(line, 0), hex_digits::word(line, 9)) else {
        return false;
    };
    line[8] == b' ' && line[17] == b'\n' && root::root_bits(bits) == root
}

// Whether the next line agrees; none at the input's end.
fn next() -> Option<bool> {
    let mut line = [0u8; 18];
    match io::read_full(0, &mut line) {
        0 => None,
        n => Some(n == line.len() && agrees(&line)),
    }
}

// How many lines there are, and how many of them differ.
fn count() -> (u64, u64) {
    let mut differ = 0;
    for lines in 0..u64::MAX {
        match next() {
            Some(true) => {}
            Some(false) => differ += 1,
            None => return (lines, differ),
        }
    }
    (u64::MAX, differ)
}

fn main() {
    let (lines, differ) = count();
    let _ = writeln!(Output, "{lines} roots, {differ} differ");
}
