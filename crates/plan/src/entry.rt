// An arc of a transition, as the table tells it.
ghost use Rattle.std.specs.Prelude.{◌<◌};

// Where its expression stands in the file, where the flat places of its place begin, how many ranks its place has, and whether that is a pair.
// paired is the meaning's own test of which place it is (place_by), as rank_at takes it.
#[derive(Clone, Copy, Debug, PartialEq, Eq)]
pub struct Entry {
    pub expression: usize,
    pub start: usize,
    pub ranks: usize,
    pub paired: bool,
    ghost low_start: { start < 8192 },
    ghost few_ranks: { ranks < 8192 },
}
