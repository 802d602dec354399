// The call that unfolds a net file into a flat file.
ghost use Rattle.std.specs.Prelude.{◌≡◌, ◌≤◌, length};
ghost use Rattle.prepared.specs.internal.Drawn.{net_of, IsDrawn};
ghost use Rattle.prepared.specs.internal.Prepared.{InitialCounts};
ghost use Rattle.row_numbers.specs.Unfolding.{unfolded, unfold_call};
ghost use Rattle.row_bytes.specs.internal.RowBytes.{Roomy};
ghost use Rattle.unfolding.specs.Replies.{unfold_called};

use firing::Arc;
use flat_file::{write_end, write_head, write_places};
use prepared::Drawing;
use reading::{Reason, Refusal, once_more, refused};
use row_bytes::Marked;
use row_numbers::mark_all;
use rows::{is_small, most_slots};

// A net that was read, and a list whose front has the initial counts of its flat places. A list of so many arcs has room for each row.
#[derive(Clone, Copy)]
struct Counted<'a, const ARCS: usize> {
    drawing: &'a Drawing<'a>,
    initial: &'a [u16],
    ghost long: { length initial.now ≡ 4096 },
    ghost counts: { InitialCounts (net_of drawing.now) initial.now },
    ghost few: { ARCS ≤ 20480 },
    ghost roomy: { Roomy drawing.now ARCS },
}

impl<'a, const ARCS: usize> Counted<'a, ARCS> {
    // The initial counts of its flat places.
    fn initial_counts(&self) -> &'a [u16]
        ensures is { result.now ≡ (unfolded (net_of self.now.drawing.now)).initial }
        ensures known { IsDrawn self.now.drawing.now.file self.now.drawing.now.plan }
    {
        &self.initial[..self.drawing.flat_places()]
    }

    // Writes its flat file, if there is space for it.
    fn write_file(self, out: &mut [u8]) -> Result<usize, Refusal>
        ensures { unfold_called result out.new ≡ unfold_call self.entry.drawing.now.file out.old }
    {
        let drawing = self.drawing;
        let initial = self.initial_counts();
        let mut marks = [0u32; 2048];
        let mut counts = [0usize; 32];
        mark_all(drawing, &mut marks, &mut counts);
        let net = Marked::<ARCS> {
            drawing,
            marks: &marks,
        };
        let mut arcs = [Arc::default(); ARCS];
        if !net.fits(&counts, &mut arcs, out.len()) {
            return refused(Reason::NoSpace, 0);
        }
        let mut next = write_head(out, 0);
        next = write_places(initial, out, next);
        next = net.write_all(&mut arcs, out, next);
        Ok(write_end(out, next))
    }

    // The same, with a large list. Kept apart (once_more).
    #[inline(never)]
    fn write_large(self, out: &mut [u8], again: bool) -> Result<usize, Refusal>
        ensures { unfold_called result out.new ≡ unfold_call self.entry.drawing.now.file out.old }
    {
        if once_more(self.drawing.file(), again) {
            return self.write_large(out, false);
        }
        self.write_file(out)
    }
}

// Unfolds a net file: the flat file over the front of `out`, and its length; a refusal changes nothing.
pub fn unfold(net: &[u8], out: &mut [u8]) -> Result<usize, Refusal>
    ensures { unfold_called result out.new ≡ unfold_call net.now out.old }
{
    let mut plan = [0u32; 3584];
    let mut initial = [0u16; 4096];
    let drawing = Drawing::read(net, &mut plan, &mut initial)?;
    // Two types, so the choice stands where they are made.
    if is_small(most_slots(&drawing), drawing.file().len()) {
        return Counted::<1024> {
            drawing: &drawing,
            initial: &initial,
        }
        .write_file(out);
    }
    Counted::<20480> {
        drawing: &drawing,
        initial: &initial,
    }
    .write_large(out, true)
}
