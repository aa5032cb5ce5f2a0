// The answer to one line of the input: document 01, 'Program', with the seven numbers of document 02, Change 10.
// `print_choice` prints a choice's line, `put_malformed` the line of refusal 8, `answer_line` answers a line. Each
// appends its text to a vector. Inner routines of the text program, which lends them room.
#![tactic(auto)]

ghost use Rattle.std.specs.Prelude.{◌≡◌, false, true, [], ◌∷◌, ◌++◌, ◌+◌, ◌*◌, ◌≤◌, ◌<◌, length, MatchOption, IfSome};
ghost use Rattle.arrayvec.specs.ArrayVec.{array_vec_len};
ghost use Rattle.cube.specs.Refusals.{refusal_number};
ghost use Rattle.notes.specs.declared.Notes.{Notes as Counts};
ghost use Rattle.tilings.specs.Plan.{reach};
ghost use Rattle.tilings.specs.Answers.{chosen, reached};
ghost use Rattle.choice.specs.Choice.{readings_in, said};
ghost use Rattle.put.specs.Decimal.{decimal};
ghost use Rattle.line.specs.Line.{parse_line};
ghost use Rattle.answer.specs.Answer.{same, input_names, fields, numbers, choice_line, BareLines};
ghost use Rattle.answer.specs.Answer.{refusal, refused_line, choice_reply, cube_reply, reply_to, printed, ends, flow};
ghost use Rattle.answer.specs.Room.{line_room, choice_room, names_more};

use arrayvec::ArrayVec;
use cube::Refusal;
use std::ops::ControlFlow;
use tilings::{Choice, Counted};

// A number, and a byte after it. Each function asks for its room: what is left of it changes with every byte, so no type holds
// it; and the line's number is an argument of its own, as in the definitions.
fn put_field<const CAP: usize>(n: u8, after: u8, out: &mut ArrayVec<u8, CAP>)
    requires { array_vec_len out.old + 4 ≤ CAP }
    ensures text { out.new.items ≡ out.old.items ++ (decimal n ++ (after ∷ [])) }
    ensures room { array_vec_len out.new ≤ array_vec_len out.old + 4 }
{
    put::small(n, out);
    out.push(after);
}

// Numbers, single spaces, and a newline behind the last.
fn put_fields<const CAP: usize>(numbers: &[u8], last: u8, out: &mut ArrayVec<u8, CAP>)
    requires { array_vec_len out.old + 4 * (length numbers.now + 1) ≤ CAP }
    ensures text { out.new.items ≡ out.old.items ++ fields (numbers.now ++ (last ∷ [])) }
    ensures room { array_vec_len out.new ≤ array_vec_len out.old + 4 * (length numbers.now + 1) }
{
    for &n in numbers {
        put_field(n, b' ', out);
    }
    put_field(last, b'\n', out);
}

// A match of its own, as the row (`rows`) and C's record (`mc33_c`) have theirs, so that the edits of each stand in its crate.
// The numbers of a tiling; empty is zeros, and no tiling is 255 with the configuration and the sub-configuration.
#[tactic(auto, using(crate::proofs::Replies::empty_line, crate::proofs::Replies::untiled_line, crate::proofs::Replies::tiled_line))]
fn numbers_of(choice: Choice) -> (u8, u8, u8, u8)
    ensures { (counted : Counts) → choice_line (reach (chosen choice) counted) ≡ fields (numbers result.0 result.1 result.2 result.3 counted) }
{
    match choice {
        Choice::Empty => (0, 0, 0, 0),
        Choice::Untiled(c, sub) => (255, c, sub, 0),
        Choice::Tiled(code, row, column, centre) => (code, row, column, centre as u8),
    }
}

// The line of a choice.
fn put_choice<const CAP: usize>(r: Counted, out: &mut ArrayVec<u8, CAP>)
    requires { (array_vec_len out.old + choice_room ≤ CAP) × (r.notes.readings ≤ 255) }
    ensures text { out.new.items ≡ out.old.items ++ choice_line (reached r) }
    ensures room { array_vec_len out.new ≤ array_vec_len out.old + choice_room }
{
    let (a, b, c, d) = numbers_of(r.choice);
    let notes = r.notes;
    put_fields(
        &[a, b, c, d, notes.unsettled, notes.unmatched],
        notes.readings as u8,
        out,
    );
}

// The line of a refusal at a line of the input.
fn put_refused<const CAP: usize>(why: Refusal, number: u64, out: &mut ArrayVec<u8, CAP>)
    requires { array_vec_len out.old + line_room ≤ CAP }
    ensures text { out.new.items ≡ out.old.items ++ refused_line (refusal_number why) number }
    ensures room { array_vec_len out.new ≤ array_vec_len out.old + line_room }
{
    put::bytes(b"refused ", out);
    put_field(cube::number(why), b' ', out);
    put::decimal(number, out);
    out.push(b'\n');
}

// The line of a malformed line's refusal.
pub fn put_malformed<const CAP: usize>(number: u64, out: &mut ArrayVec<u8, CAP>)
    requires { array_vec_len out.old + line_room ≤ CAP }
    ensures text { out.new.items ≡ out.old.items ++ refused_line 8 number }
    ensures room { array_vec_len out.new ≤ array_vec_len out.old + line_room }
{
    put_refused(Refusal::Malformed, number, out);
}

// The answer for a cube at a line of the input. A refusal ends the run at that line.
pub fn print_choice<const CAP: usize>(
    answer: Result<Counted, Refusal>,
    number: u64,
    out: &mut ArrayVec<u8, CAP>,
) -> ControlFlow<u64>
    requires { (array_vec_len out.old + line_room ≤ CAP) × (readings_in (said answer) ≤ 255) }
    ensures text { out.new.items ≡ out.old.items ++ printed number (choice_reply (said answer)) }
    ensures end { result ≡ flow number (choice_reply (said answer)) }
    ensures room { (array_vec_len out.new ≤ array_vec_len out.old + line_room)
        × (ends (choice_reply (said answer)) ≡ false → array_vec_len out.new ≤ array_vec_len out.old + choice_room) }
{
    match answer {
        Ok(r) => {
            put_choice(r, out);
            ControlFlow::Continue(())
        }
        Err(why) => {
            put_refused(why, number, out);
            ControlFlow::Break(number)
        }
    }
}

// Whether a line names the input's fields.
#[tactic(auto, using(crate::proofs::Same::pointwise_same), unfolding(crate::specs::Answer::input_names))]
fn is_names(line: &[u8]) -> bool
    ensures { result ≡ same line.now input_names }
{
    let names: &[u8] = b"case config c0 c1 c2 c3 c4 c5 c6 c7";
    line == names
}

// A malformed line is the end.
fn refuse_malformed<const CAP: usize>(number: u64, out: &mut ArrayVec<u8, CAP>) -> ControlFlow<u64>
    requires { array_vec_len out.old + line_room ≤ CAP }
    ensures text { out.new.items ≡ out.old.items ++ printed number (refusal 8) }
    ensures end { result ≡ flow number (refusal 8) }
    ensures room { array_vec_len out.new ≤ array_vec_len out.old + line_room }
{
    put_malformed(number, out);
    ControlFlow::Break(number)
}

// The answer for the cube of a line, none of a malformed one. Only a long line has one.
fn cube_answer(line: &[u8]) -> Option<Result<Counted, Refusal>>
    ensures reply { MatchOption result
        (refusal 8 ≡ cube_reply (parse_line line.now))
        (λ a. choice_reply (said a) ≡ cube_reply (parse_line line.now)) }
    ensures readings { IfSome result (λ a. readings_in (said a) ≤ 255) }
    ensures long { IfSome result (λ a. 74 < length line.now) }
{
    let parsed = line::parse_line(line)?;
    Some(choice::handle_cube(parsed.case, parsed.configuration, parsed.cube))
}

// Line 1 names the fields.
fn answer_names<const CAP: usize>(
    line: &[u8],
    number: u64,
    out: &mut ArrayVec<u8, CAP>,
) -> ControlFlow<u64>
    requires { (array_vec_len out.old + line_room ≤ CAP) × (number ≤ 1) }
    ensures text { out.new.items ≡ out.old.items ++ printed number (reply_to number line.now) }
    ensures end { result ≡ flow number (reply_to number line.now) }
    ensures room { (array_vec_len out.new ≤ array_vec_len out.old + line_room)
        × (ends (reply_to number line.now) ≡ false → array_vec_len out.new ≤ array_vec_len out.old + length line.now + names_more) }
{
    if !is_names(line) {
        return refuse_malformed(number, out);
    }
    put::bytes(
        b"code row column centre unsettled unmatched readings\n",
        out,
    );
    ControlFlow::Continue(())
}

// A line of the input without its newline: line 1 names the fields.
pub fn answer_line<const CAP: usize>(
    line: &[u8],
    number: u64,
    out: &mut ArrayVec<u8, CAP>,
) -> ControlFlow<u64>
    requires { array_vec_len out.old + line_room ≤ CAP }
    ensures text { out.new.items ≡ out.old.items ++ printed number (reply_to number line.now) }
    ensures end { result ≡ flow number (reply_to number line.now) }
    ensures room { (array_vec_len out.new ≤ array_vec_len out.old + line_room)
        × (ends (reply_to number line.now) ≡ false
        → (array_vec_len out.new ≤ array_vec_len out.old + length line.now + names_more)
        × (1 < number → array_vec_len out.new ≤ array_vec_len out.old + length line.now)) }
    ensures bare { BareLines }
{
    if number <= 1 {
        return answer_names(line, number, out);
    }
    match cube_answer(line) {
        Some(answer) => print_choice(answer, number, out),
        None => refuse_malformed(number, out),
    }
}
