// The bindings of each transition, one transition after the other.
ghost use Rattle.std.specs.Prelude.{◌≡◌, ◌≤◌, ◌-◌, length};
ghost use Rattle.std.specs.Iterator.{at_most};
ghost use Rattle.prepared.specs.internal.Drawn.{net_of};
ghost use Rattle.row_numbers.specs.internal.Walked.{entries};
ghost use Rattle.row_bytes.specs.internal.RowBytes.{Known, Roomy};

use crate::marked::Marked;
use bindings::space_of;
use prepared::Transition;
use row_numbers::entries_of;

// The bindings of a transition: how many there are, and where their marks begin. A list of so many arcs has room for each row.
#[derive(Drop)]
pub struct Stretch<'a, const ARCS: usize> {
    pub transition: Transition<'a>,
    pub marks: &'a [u32; 2048],
    pub many: usize,
    pub base: usize,
    ghost known: { Known transition marks.now many base },
    ghost roomy: { Roomy transition.drawing ARCS },
}

// Those of the transitions that are still to come, from number t on.
#[derive(Drop)]
pub struct Stretches<'a, const ARCS: usize> {
    pub net: Marked<'a, ARCS>,
    pub t: usize,
    pub base: usize,
    ghost few: { t ≤ 32 },
    ghost begins: { base ≡ entries (net_of net.drawing.now) net.drawing.now.plan t },
}

impl<'a, const ARCS: usize> Iterator for Stretches<'a, ARCS> {
    ghost use Rattle.row_bytes.specs.internal.StretchSteps.{Told};

    type Item = Stretch<'a, ARCS>;

    ghost next_gives = { λ s r t. Told s.net.drawing.now s.t r t.net.drawing.now t.t };

    ghost remaining = { λ s. at_most (32 - s.t) };

    fn next(&mut self) -> Option<Stretch<'a, ARCS>> {
        let Marked { drawing, marks } = self.net;
        let t = self.t;
        if drawing.transitions() <= t {
            return None;
        }
        let plan = drawing.plan();
        let many = space_of(plan, t);
        let base = self.base;
        self.t += 1;
        self.base += entries_of(plan, t, many);
        Some(Stretch {
            transition: drawing.transition(t),
            marks,
            many,
            base,
        })
    }
}

impl<'a, const ARCS: usize> Marked<'a, ARCS> {
    // The bindings of all its transitions.
    pub(crate) fn stretches(self) -> Stretches<'a, ARCS>
        ensures { (result.net.drawing.now ≡ self.entry.drawing.now) × (result.t ≡ 0) }
    {
        Stretches {
            net: self,
            t: 0,
            base: 0,
        }
    }
}
