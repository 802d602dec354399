// The kinds of arcs.

// In the order of a row.
#[derive(Clone, Copy, Debug, PartialEq, Eq)]
pub enum Kind {
    Take,
    Put,
    Hinder,
}
