// A part line that is kept at the front of the room for a block.
ghost use Rattle.std.specs.Prelude.{◌≤◌};

// How many bytes of the line have come, at most 81 since no line is longer, and the line's number.
#[derive(Clone, Copy)]
pub struct Part {
    pub have: usize,
    pub number: u64,
    ghost short: { have ≤ 81 },
}
