// The face that a pick is made for, in a file of its own: a type imports all that its file's clauses name.
ghost use Rattle.interior.specs.Pick.{IsAmbiguousFace};

// 1 to 6.
#[derive(Clone, Copy)]
pub struct AmbiguousFace {
    pub n: u32,
    pub ghost ambiguous: { IsAmbiguousFace n },
}
