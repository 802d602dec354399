// Whether the flat file fits into a lent list: by a bound on each transition's rows, and measured only where the bound does not tell.
ghost use Rattle.std.specs.Prelude.{◌≡◌, ◌+◌, ◌*◌, ◌≤◌, length, leb};
ghost use Rattle.net.specs.Net.{flat_place_count};
ghost use Rattle.prepared.specs.internal.Drawn.{net_of};
ghost use Rattle.row_numbers.specs.internal.Marks.{RowsCounted};
ghost use Rattle.row_bytes.specs.internal.RowBytes.{all_bytes};

use crate::marked::Marked;
use firing::Arc;
use row_lengths::most_row;

impl<const ARCS: usize> Marked<'_, ARCS> {
    // How many bytes the rows of all transitions take at most, from how many each has. No row is loaded for it.
    fn bound_all(&self, counts: &[usize; 32]) -> usize
        requires { RowsCounted (net_of self.now.drawing.now) counts.now (length (net_of self.now.drawing.now).transitions) }
        ensures is { length (all_bytes (net_of self.now.drawing.now)) ≤ result }
        ensures small { result ≤ 67200000000000 }
    {
        let drawing = self.drawing;
        let mut total: usize = 0;
        for t in 0..drawing.transitions() {
            let most = most_row(&drawing.transition(t));
            total += counts[t] * (1 + 5 * most);
        }
        total
    }

    // Whether a flat file with its rows, of which each transition has so many, fits into so many bytes.
    pub fn fits(&self, counts: &[usize; 32], arcs: &mut [Arc; ARCS], size: usize) -> bool
        requires { RowsCounted (net_of self.now.drawing.now) counts.now (length (net_of self.now.drawing.now).transitions) }
        ensures { result ≡ leb (3 + 3 * flat_place_count (net_of self.now.drawing.now) + length (all_bytes (net_of self.now.drawing.now))) size }
    {
        let front = 3 + 3 * self.drawing.flat_places();
        if front + self.bound_all(counts) <= size {
            return true;
        }
        front + self.measure_all(arcs) <= size
    }
}
