// The text program of document 01, 'Program': standard input to standard output. A turn reads a block behind
// the part line that the last one left, answers the whole lines, writes the answers and moves the part line
// to the front, so memory does not grow with the input. What is answered is `text`'s; here is what reads,
// writes and keeps. Whatever goes to standard output is handed to `write_text`. A call that was interrupted
// or would block is made again (`waiting`).
#![tactic(auto)]

mod part;

ghost use Rattle.std.specs.Prelude.{◌≡◌, ◌+◌, ◌≤◌, cond, eqb, length, take, Ok, Err, IfOk, IfErr, OnOk};
ghost use Rattle.std.specs.Io.KnownBytes.{Appends};
ghost use Rattle.text.specs.Block.{block_of};
ghost use Rattle.mc33.specs.declared.Failure.{Failure};
ghost use Rattle.mc33.specs.Kept.{comes_to, RefusedAt, Kept, Counted, Ended, Told, Turned};
ghost use Rattle.mc33.specs.Runs.{Finished};

use arrayvec::ArrayVec;
use part::Part;
use std::env::{Env, FillError};
use std::io;
use std::io::{IsTerminal, Read, Write};
use std::ops::ControlFlow;
use std::time::Clock;

// Room for a block, and for what it comes to: fixed memory, and no heap. A block's is an array, and `Part` says how
// much of it is kept: a read goes behind that, and an `ArrayVec` lends no room past its length.
const BLOCK: usize = 65536;

const ROOM: usize = 65664;

// The lines are counted up to here, 2^63.
const MOST_LINES: u64 = 0x8000_0000_0000_0000;

// A loop has to end: so many turns are made at most, 2^64 - 1.
const MOST_TURNS: u64 = u64::MAX;

// What failed.
#[derive(Clone, Copy)]
enum Failure {
    Read,
    Count,
    Write,
}

impl Failure {
    // The line that says so, in bytes and not by `Display`: `waiting` writes bytes, and says how many were taken.
    fn line(self) -> &'static [u8] {
        match self {
            Failure::Read => b"mc33: read failed\n",
            Failure::Count => b"mc33: counting the lines failed\n",
            Failure::Write => b"mc33: write failed\n",
        }
    }
}

// A piece of the input: the block from this line on, or the end in this line.
#[derive(Clone, Copy)]
enum Piece {
    Block(u64),
    End(u64),
}

// What the program reads from and writes to, and the clock by which it waits.
#[derive(Drop)]
struct Streams<C, R, W, E> {
    clock: C,
    input: R,
    output: W,
    errors: E,
}

// That so many bytes are all of the text; else the write failed.
fn all_written(taken: usize, text: &[u8]) -> Result<(), Failure>
    ensures { result ≡ cond (eqb taken (length text.now)) (Ok tt) (Err Failure.Write) }
{
    if taken == text.len() {
        Ok(())
    } else {
        Err(Failure::Write)
    }
}

impl<C: Clock, R: Read, W: Write, E: Write> Streams<C, R, W, E> {
    fn say(&mut self, text: &[u8]) {
        waiting::write_all(&self.clock, &mut self.errors, text);
    }

    // Says what the program wants, below a line that says why.
    fn say_wants(&mut self, why: &[u8]) {
        self.say(why);
        self.say(
            b"mc33: on standard input: 'case config c0 c1 c2 c3 c4 c5 c6 c7', then a cube a line; see README.md\n",
        );
    }

    // Says at which line the input was refused, by this piece: as standard output's last line does.
    fn say_refused(&mut self, line: u64, piece: Piece, input: &[u8])
        requires { RefusedAt piece input.now line }
    {
        let mut text = ArrayVec::<u8, 64>::new();
        put::bytes(b"mc33: refused at line ", &mut text);
        put::decimal(line, &mut text);
        text.push(b'\n');
        self.say(text.as_slice());
    }

    // Writes what this piece of the input comes to.
    fn write_text(&mut self, text: &[u8], piece: Piece, input: &[u8]) -> Result<(), Failure>
        requires { text.now ≡ comes_to piece input.now }
        ensures written { OnOk result (Appends (W.contents self.old.output) (W.contents self.new.output) text.now) }
        ensures failed { IfErr result (λ why. why ≡ Failure.Write) }
    {
        all_written(
            waiting::write_all(&self.clock, &mut self.output, text),
            text,
        )
    }

    // Answers the n bytes that there are: what is kept is what their block leaves. The two rooms are no fields, since what is in
    // them is lent to `write_text` beside self.
    fn answer(
        &mut self,
        number: u64,
        buf: &mut [u8; BLOCK],
        n: usize,
        out: &mut ArrayVec<u8, ROOM>,
    ) -> Result<Option<Part>, Failure>
        requires { n ≤ length buf.old }
        ensures { Counted number result (Kept result buf.new out.new.items (block_of number (take n buf.old))) }
    {
        if MOST_LINES <= number {
            return Err(Failure::Count);
        }
        out.clear();
        let done = text::answer_block(&buf[..n], number, out);
        self.write_text(out.as_slice(), Piece::Block(number), &buf[..n])?;
        let part = match done {
            ControlFlow::Continue(part) => part,
            ControlFlow::Break(line) => {
                self.say_refused(line, Piece::Block(number), &buf[..n]);
                return Ok(None);
            }
        };
        Ok(Some(Part {
            have: put::to_front(buf, part.left, n),
            number: part.number,
        }))
    }

    // The input's end: answers it and stops.
    fn finish(
        &mut self,
        number: u64,
        part: &[u8],
        out: &mut ArrayVec<u8, ROOM>,
    ) -> Result<Option<Part>, Failure>
        ensures { Ended number part.now result out.new.items }
    {
        out.clear();
        let end = text::finish(part, number, out);
        self.write_text(out.as_slice(), Piece::End(number), part)?;
        if let ControlFlow::Break(line) = end {
            self.say_refused(line, Piece::End(number), part);
        }
        Ok(None)
    }

    // Goes by what the read told: how many bytes it put behind the part line. A part line leaves room to read, so 0
    // is the input's end.
    fn after_read(
        &mut self,
        got: io::Result<usize>,
        part: Part,
        buf: &mut [u8; BLOCK],
        out: &mut ArrayVec<u8, ROOM>,
    ) -> Result<Option<Part>, Failure>
        requires { IfOk got (λ n. part.have + n ≤ length buf.old) }
        ensures { Told got part buf.old result buf.new out.new.items }
    {
        match got {
            Err(_) => Err(Failure::Read),
            Ok(0) => self.finish(part.number, &buf[..part.have], out),
            Ok(more) => self.answer(part.number, buf, part.have + more, out),
        }
    }

    // Reads once, and answers what there is.
    fn turn(
        &mut self,
        part: Part,
        buf: &mut [u8; BLOCK],
        out: &mut ArrayVec<u8, ROOM>,
    ) -> Result<Option<Part>, Failure>
        ensures { Turned part buf.old result buf.new out.new.items }
    {
        let got = waiting::read(&self.clock, &mut self.input, &mut buf[part.have..]);
        self.after_read(got, part, buf, out)
    }

    // The turns, from the start on, until the program stops or all turns are used.
    fn run(
        &mut self,
        buf: &mut [u8; BLOCK],
        out: &mut ArrayVec<u8, ROOM>,
    ) -> Result<Option<Part>, Failure>
        ensures { Finished result buf.new }
    {
        let mut part = Part { have: 0, number: 1 };
        for _turns in 0..MOST_TURNS {
            match self.turn(part, buf, out)? {
                Some(next) => part = next,
                None => return Ok(None),
            }
        }
        Ok(Some(part))
    }
}

// Whether the program was given an argument.
fn has_argument<V: Env>(system: &V) -> bool {
    let mut name = [0u8; 64];
    !matches!(system.arg(1, &mut name), Err(FillError::NotPresent))
}

fn main(rt: HostRuntime) {
    let mut streams = Streams {
        clock: &rt,
        input: rt.stdin(),
        output: rt.stdout(),
        errors: rt.stderr(),
    };
    if has_argument(&rt) {
        streams.say_wants(
            b"mc33: takes no argument, and read nothing; run it as: mc33 < cubes.txt > answers.txt\n",
        );
        return;
    }
    if streams.input.is_terminal() {
        streams.say_wants(
            b"mc33: reads cubes from this terminal, up to Ctrl-D; from a file: mc33 < cubes.txt > answers.txt\n",
        );
    }
    let mut buf = [0u8; BLOCK];
    let mut out = ArrayVec::new();
    if let Err(failure) = streams.run(&mut buf, &mut out) {
        streams.say(failure.line());
    }
}
