// The program of document 01, 'Program', over slices: `answer_block` answers the whole lines of a block, and
// `finish` the input's end. Every byte that the program prints is put by these. Inner routines of the
// program mc33, which lends them room.
#![tactic(auto)]

ghost use Rattle.std.specs.Prelude.{◌≡◌, [], ◌++◌, ◌+◌, ◌≤◌, ◌<◌, ◌^◌, length, drop};
ghost use Rattle.std.specs.ControlFlow.{MatchControlFlow};
ghost use Rattle.arrayvec.specs.ArrayVec.{array_vec_len};
ghost use Rattle.answer.specs.Room.{line_room};
ghost use Rattle.text.specs.Run.{at_end};
ghost use Rattle.text.specs.Block.{block_room, behind, block_from, block_of, Composes, BlocksJoin};
ghost use Rattle.text.specs.Left.{block_by};

use arrayvec::ArrayVec;
use std::ops::ControlFlow;

// The part line that a block leaves: where it begins, and its number.
#[derive(Clone, Copy)]
pub struct PartLine {
    pub left: usize,
    pub number: u64,
}

// The part line from `at` on, which is in the answer: no line is longer than 81 bytes. A refusal is the end, at its line.
#[tactic(auto, using(crate::proofs::Ends::part_refused, crate::proofs::Ends::part_left))]
fn part_line<const CAP: usize>(
    input: &[u8],
    at: usize,
    number: u64,
    out: &mut ArrayVec<u8, CAP>,
) -> ControlFlow<u64, PartLine>
    requires { (at ≤ length input.now) × (array_vec_len out.old + line_room ≤ CAP) }
    ensures block { block_by out.new.items input.now result ≡ behind out.old.items (block_from number (drop at input.now) []) }
    ensures bounds { MatchControlFlow result (λ part. (part.left ≤ length input.now) × (part.number ≡ number)) (λ line. line ≡ number) }
{
    if 82 <= input.len() - at {
        answer::put_malformed(number, out);
        return ControlFlow::Break(number);
    }
    ControlFlow::Continue(PartLine { left: at, number })
}

// The whole lines of a block that begins with line `number`. A refusal is the end, at its line.
pub fn answer_block<const CAP: usize>(
    input: &[u8],
    number: u64,
    out: &mut ArrayVec<u8, CAP>,
) -> ControlFlow<u64, PartLine>
    requires block_room_in_bounds { array_vec_len out.old + length input.now + block_room ≤ CAP }
    requires input_bound { number + length input.now < 2 ^ 64 }
    ensures block { block_by out.new.items input.now result ≡ behind out.old.items (block_of number input.now) }
    ensures bounds { MatchControlFlow result
        (λ part. (part.left ≤ length input.now) × (part.number ≤ number + length input.now))
        (λ line. line ≤ number + length input.now) }
    ensures composes { Composes number input.now }
{
    // Both are in the answer. `split` would look at each byte in turn, and says neither where the rest begins nor its number.
    let mut at = 0;
    let mut n = number;
    while let Some(end) = scan::find(input, at, input.len(), b'\n') {
        answer::answer_line(&input[at..end], n, out)?;
        at = end + 1;
        n += 1;
    }
    part_line(input, at, n, out)
}

// The input's end, in line `number`, of which `part` has come. A refusal is told by its line.
#[tactic(auto, using(crate::proofs::Ends::ends_whole, crate::proofs::Ends::ends_refused, crate::proofs::Ends::refused_some, crate::proofs::Joins::blocks_join))]
pub fn finish<const CAP: usize>(
    part: &[u8],
    number: u64,
    out: &mut ArrayVec<u8, CAP>,
) -> ControlFlow<u64>
    requires { array_vec_len out.old + line_room ≤ CAP }
    ensures text { out.new.items ≡ out.old.items ++ at_end number part.now }
    ensures room { array_vec_len out.new ≤ array_vec_len out.old + line_room }
    ensures end { MatchControlFlow result
        (λ _. at_end number part.now ≡ [])
        (λ line. (1 ≤ length (at_end number part.now)) × (line ≡ number)) }
    ensures joins { BlocksJoin }
{
    if part.is_empty() & (1 < number) {
        return ControlFlow::Continue(());
    }
    answer::put_malformed(number, out);
    ControlFlow::Break(number)
}
