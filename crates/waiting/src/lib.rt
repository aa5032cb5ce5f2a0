// Reads and writes that wait. A call that a signal interrupted is made again, and so is one that would block, a
// millisecond later. So all bytes come and go, each once and in order, whatever the descriptor is set to.
#![tactic(auto)]

ghost use Rattle.std.specs.Prelude.{◌≡◌, ◌+◌, ◌≤◌, length, take};
ghost use Rattle.std.specs.Io.KnownBytes.{Appends};
ghost use Rattle.waiting.specs.Waits.{passing, Moved, Retried};
ghost use Rattle.waiting.specs.Bytes.{Takes, Puts};

use std::io::{ErrorKind, Read, Write};
use std::time::{Clock, Duration};
use std::{io, thread};

// A loop has to end: so many times a call is made again at most, 2^64 - 1.
const MOST_TRIES: u64 = u64::MAX;

// A millisecond.
const PAUSE: u64 = 1;

// Whether a call that failed so is to be made again: a signal interrupted it, or its descriptor would block.
fn is_passing(kind: ErrorKind) -> bool
    ensures { result ≡ passing kind }
{
    matches!(kind, ErrorKind::Interrupted | ErrorKind::WouldBlock)
}

// Before a call is made again: waits where its descriptor would block.
fn wait<C: Clock>(clock: &C, kind: ErrorKind) {
    if kind == ErrorKind::WouldBlock {
        thread::sleep(clock, Duration::from_millis(PAUSE));
    }
}

// Makes the call, and again while it fails for now only.
fn retry<C: Clock, F: FnMut() -> io::Result<usize>>(clock: &C, call: &mut F) -> io::Result<usize>
    requires { F.IsAlwaysCallable call.old }
    ensures { Retried F.step call.old result call.new }
{
    for _tries in 0..MOST_TRIES {
        match call() {
            Err(e) if is_passing(e.kind()) => wait(clock, e.kind()),
            answer => return answer,
        }
    }
    call()
}

// Reads once, and waits: how many bytes it put at the start of room, 0 at the end of the input.
pub fn read<C: Clock, R: Read>(clock: &C, input: &mut R, room: &mut [u8]) -> io::Result<usize>
    ensures moved { Moved (length room.old) result }
    ensures bytes { Takes (R.remaining input.old) (R.remaining input.new) result room.new }
{
    let mut call = || input.read(room);
    retry(clock, &mut call)
}

// Writes once, and waits: how many of text's first bytes it took, which may be fewer than all.
fn write<C: Clock, W: Write>(clock: &C, output: &mut W, text: &[u8]) -> io::Result<usize>
    ensures moved { Moved (length text.now) result }
    ensures bytes { Puts (W.contents output.old) (W.contents output.new) result text.now }
{
    let mut call = || output.write(text);
    retry(clock, &mut call)
}

// Writes all of text, or stops at a write that fails or takes nothing: how many bytes were taken, each once and in
// order. On an empty text it makes no call.
pub fn write_all<C: Clock, W: Write>(clock: &C, output: &mut W, text: &[u8]) -> usize
    ensures moved { result ≤ length text.now }
    ensures bytes { Appends (W.contents output.old) (W.contents output.new) (take result text.now) }
{
    // How many were taken is the answer, so it is counted: a loop over what is left of text would be no plainer.
    let mut taken = 0;
    while taken < text.len() {
        match write(clock, output, &text[taken..]) {
            Ok(0) | Err(_) => break,
            Ok(put) => taken += put,
        }
    }
    taken
}
