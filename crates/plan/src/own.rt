// One of a transition's own variables. It stands in a file of its own, since the meaning of the table names it.
ghost use Rattle.std.specs.Prelude.{◌≤◌, ◌<◌};

// Its number, and the size of its set.
#[derive(Clone, Copy, Debug, PartialEq, Eq)]
pub struct Own {
    pub variable: u8,
    pub size: u8,
    ghost few_variables: { variable < 32 },
    ghost sized: { 1 ≤ size },
}
