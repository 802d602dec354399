// What transitions are read over.
ghost use Rattle.std.specs.Prelude.{◌≤◌, length};

use net::{PlaceSets, Scope};

// A short file with its sets and variables, and at most 32 places by their sets.
#[derive(Clone, Copy)]
pub struct Ground<'a> {
    pub scope: Scope<'a>,
    pub kinds: &'a [PlaceSets],
    ghost short_file: { length scope.file.now ≤ 16384 },
    ghost few_places: { length kinds.now ≤ 32 },
}
