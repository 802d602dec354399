// An arc under a binding.
use evaluation::Bound;
use plan::Entry;

// A net file with its table and each variable's colour, and the arc's entry in the table.
#[derive(Clone, Copy)]
pub struct BoundArc<'a> {
    pub bound: Bound<'a>,
    pub entry: Entry,
}
