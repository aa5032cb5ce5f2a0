// The escapes of a test: `\n`, `\r`, `\t`, `\0`, `\\`, `\xHH` with two lower-case hex digits, `\N` and `\A`
// for the names line of the input and of the output, `\C` for eight corners, `\L` for 100,000 bytes '1'.
ghost use Rattle.std.specs.Prelude.{◌≤◌};
ghost use Rattle.arrayvec.specs.ArrayVec.{array_vec_len};

use crate::run::INPUT;
use arrayvec::ArrayVec;

// Where an escape has come to: behind its backslash, behind its `x`, and behind its first digit.
#[derive(Clone, Copy)]
enum Escape {
    Outside,
    Begun,
    Hex,
    Digit(u8),
}

// What the escape with this letter stands for.
fn meaning(letter: u8) -> Option<&'static [u8]> {
    match letter {
        b'n' => Some(b"\n"),
        b'r' => Some(b"\r"),
        b't' => Some(b"\t"),
        b'0' => Some(b"\0"),
        b'\\' => Some(b"\\"),
        b'N' => Some(b"case config c0 c1 c2 c3 c4 c5 c6 c7\n"),
        b'A' => Some(b"code row column centre unsettled unmatched readings\n"),
        b'C' => Some(b" 3f800000 bf800000 3f800000 bf800000 bf800000 bf800000 bf800000 bf800000"),
        _ => None,
    }
}

// Appends the bytes that a text stands for; none where it has another escape, or one that does not end, or they are more than
// there is room for.
pub(crate) fn decode(text: &[u8], room: &mut ArrayVec<u8, INPUT>) -> Option<()>
    ensures { array_vec_len room.old ≤ array_vec_len room.new }
{
    let mut escape = Escape::Outside;
    for &byte in text {
        escape = match (escape, byte) {
            (Escape::Outside, b'\\') => Escape::Begun,
            (Escape::Begun, b'x') => Escape::Hex,
            (Escape::Hex, _) => Escape::Digit(byte),
            (Escape::Outside, _) => {
                room.try_push(byte).ok()?;
                Escape::Outside
            }
            (Escape::Begun, b'L') => {
                for _ in 0..100 {
                    room.try_extend_from_slice(&[b'1'; 1000]).ok()?;
                }
                Escape::Outside
            }
            (Escape::Begun, _) => {
                room.try_extend_from_slice(meaning(byte)?).ok()?;
                Escape::Outside
            }
            (Escape::Digit(first), _) => {
                room.try_push(hex_digits::pair(&[first, byte], 0)?).ok()?;
                Escape::Outside
            }
        };
    }
    match escape {
        Escape::Outside => Some(()),
        _ => None,
    }
}
