// One input through the library `text`, in blocks, as the program mc33 hands them to it.
ghost use Rattle.std.specs.Prelude.{◌≤◌, length};

use arrayvec::ArrayVec;
use std::cmp::min;
use std::ops::ControlFlow;
use text::PartLine;

// The longest input, which with its output has no more room than that; and room for what a block of it gives.
pub(crate) const INPUT: usize = 131072;

pub(crate) const OUT: usize = 131200;

// Whether the input gives this output in blocks, the first of `first` bytes and the others of `each`.
pub(crate) fn agrees(
    input: &[u8],
    output: &[u8],
    first: usize,
    each: usize,
    out: &mut ArrayVec<u8, OUT>,
) -> bool
    requires { (length input.now ≤ 131072) × ((1 ≤ first) × (1 ≤ each)) }
{
    let mut part = PartLine { left: 0, number: 1 };
    let mut rest = output;
    // A block goes back behind what the last one left, so `chunks` would not give it.
    let mut at = 0;
    let mut size = first;
    while at < input.len() {
        at += min(size, input.len() - at);
        size = each;
        out.clear();
        let flow = text::answer_block(&input[part.left..at], part.number, out);
        let Some(behind) = rest.strip_prefix(out.as_slice()) else {
            return false;
        };
        rest = behind;
        match flow {
            ControlFlow::Continue(next) => {
                part = PartLine {
                    left: part.left + next.left,
                    number: next.number,
                };
            }
            ControlFlow::Break(_) => return rest.is_empty(),
        }
    }
    out.clear();
    text::finish(&input[part.left..], part.number, out);
    rest == out.as_slice()
}
