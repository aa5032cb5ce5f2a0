// What a choice counts on its way: document 01, 'A choice', and document 02, Changes 4 and 7. `none`, `tests`, `look` and `add` alone set the
// fields; they are read where an answer is written.
#![tactic(auto)]

ghost use Rattle.std.specs.Prelude.{◌≡◌, ◌+◌, ◌≤◌};
ghost use Rattle.notes.specs.Notes.{no_notes, tests_of, look_of, added, total};

// Unsettled: the edge readings that are crossed with product zero or blank (document 02, Change 2). Unmatched: the
// diagonal picks without a match (Change 4). Readings: the face tests, edge readings and case-13 tests (Change 7), in
// sixteen bits: with eight a choice and its counts were eight bytes, of which the compiler makes one word that each way
// packs and unpacks. They have no ceiling in the type: `tests` takes any number.
#[derive(Clone, Copy)]
pub struct Notes {
    pub unsettled: u8,
    pub unmatched: u8,
    pub readings: u16,
}

// Written out, since a derived `Default` promises each field by itself and not `no_notes`.
pub fn none() -> Notes
    ensures { result ≡ no_notes }
{
    Notes {
        unsettled: 0,
        unmatched: 0,
        readings: 0,
    }
}

// What so many face tests count, and likewise case-13 tests.
pub fn tests(n: u16) -> Notes
    ensures { result ≡ tests_of n }
{
    Notes {
        unsettled: 0,
        unmatched: 0,
        readings: n,
    }
}

// What an edge reading counts, with the pick of its edge.
pub fn look(unsettled: bool, matched: bool) -> Notes
    ensures { result ≡ look_of unsettled matched }
{
    Notes {
        unsettled: unsettled as u8,
        unmatched: !matched as u8,
        readings: 1,
    }
}

pub fn add(x: Notes, y: Notes) -> Notes
    requires { total x + total y ≤ 255 }
    ensures { result ≡ added x y }
{
    Notes {
        unsettled: x.unsettled + y.unsettled,
        unmatched: x.unmatched + y.unmatched,
        readings: x.readings + y.readings,
    }
}
