// A net and the marks of its bindings.
ghost use Rattle.row_bytes.specs.internal.RowBytes.{Ruled, Roomy};

use prepared::Drawing;

// A net that was read, and which of its bindings have rows.
// A list of so many arcs has room for each row.
#[derive(Clone, Copy)]
pub struct Marked<'a, const ARCS: usize> {
    pub drawing: &'a Drawing<'a>,
    pub marks: &'a [u32; 2048],
    ghost ruled: { Ruled drawing.now marks.now },
    ghost roomy: { Roomy drawing.now ARCS },
}
