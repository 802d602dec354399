// Firing orders one after the other, on a net that has been read.
ghost use Rattle.std.specs.Prelude.{◌≡◌, ◌/◌, ◌≤◌, length};
ghost use Rattle.reading.specs.Basics.{items};
ghost use Rattle.firing.specs.Firing.{fired};
ghost use Rattle.firing.specs.Replies.{answer_number};
ghost use Rattle.firing.specs.internal.Loops.{Ran};
ghost use Rattle.net.specs.Net.{flat_place_count};
ghost use Rattle.bindings.specs.Orders.{fire_order, fire_orders};
ghost use Rattle.prepared.specs.internal.Drawn.{net_of};
ghost use Rattle.rows.specs.internal.Effects.{room};
ghost use Rattle.coloured.specs.Replies.{fire_called};

use bindings::name_order;
use firing::{Answer, Arc, fire_rest, row_arcs};
use prepared::Drawing;
use reading::{Reason, Refusal, once_more, refused};
use rows::{is_small, load_bound, most_slots};

// A net that was read, and a list of orders on it, 6 bytes each. Each of its rows has room in a list of so many arcs.
#[derive(Clone, Copy)]
struct Orders<'a, const ARCS: usize> {
    drawing: &'a Drawing<'a>,
    list: &'a [u8],
    ghost few: { ARCS ≤ 20480 },
    ghost roomy: { room drawing.now.file (net_of drawing.now) ≤ ARCS },
}

impl<const ARCS: usize> Orders<'_, ARCS> {
    // Fires an order; env is lent for the colours of its binding.
    fn fire_nth(
        self,
        order: &[u8],
        m: &mut [u16],
        env: &mut [u8; 32],
        arcs: &mut [Arc; ARCS],
    ) -> Answer
        requires whole { length order.now ≡ 6 }
        requires sized { length m.old ≡ flat_place_count (net_of self.drawing.now) }
        ensures { fired (answer_number result) m.new ≡ fire_order (net_of self.entry.drawing.now) order.now m.old }
    {
        let Some(named) = name_order(self.drawing, order, env) else {
            return Answer::NoBinding;
        };
        match load_bound(&self.drawing.transition(named.transition), env, m, arcs) {
            Ok(ends) => fire_rest(row_arcs(arcs, ends), m),
            Err(answer) => answer,
        }
    }

    // Fires each in turn, an answer each.
    fn fire_list(self, m: &mut [u16], answers: &mut [u8], arcs: &mut [Arc; ARCS])
        requires space { length self.list.now / 6 ≤ length answers.old }
        requires sized { length m.old ≡ flat_place_count (net_of self.drawing.now) }
        ensures { Ran (fire_order (net_of self.entry.drawing.now)) (items 6 self.entry.list.now) m.old answers.old m.new answers.new }
    {
        let mut env = [0u8; 32];
        for i in 0..self.list.len() / 6 {
            let order = &self.list[i * 6..i * 6 + 6];
            answers[i] = self.fire_nth(order, m, &mut env, arcs).number();
        }
    }

    // Fires them with a list lent for a row's arcs: how many were answered, or the refusal.
    fn fire_with(
        self,
        marking: &mut [u16],
        answers: &mut [u8],
        arcs: &mut [Arc; ARCS],
    ) -> Result<usize, Refusal>
        ensures { fire_called result marking.new answers.new ≡ fire_orders self.entry.drawing.now.file marking.old self.entry.list.now answers.old }
    {
        if marking.len() != self.drawing.flat_places() {
            return refused(Reason::WrongMarking, 0);
        }
        if self.list.len() % 6 != 0 {
            return refused(Reason::RaggedList, 0);
        }
        if answers.len() < self.list.len() / 6 {
            return refused(Reason::NoSpace, 0);
        }
        self.fire_list(marking, answers, arcs);
        Ok(self.list.len() / 6)
    }

    // Fires them with a list of its own. Kept apart (once_more).
    #[inline(never)]
    fn fire_in(self, marking: &mut [u16], answers: &mut [u8], again: bool) -> Result<usize, Refusal>
        ensures { fire_called result marking.new answers.new ≡ fire_orders self.entry.drawing.now.file marking.old self.entry.list.now answers.old }
    {
        if once_more(self.drawing.file(), again) {
            return self.fire_in(marking, answers, false);
        }
        let mut arcs = [Arc::default(); ARCS];
        self.fire_with(marking, answers, &mut arcs)
    }
}

// Fires a list of orders on a net that was read. The larger list of arcs has room for every net.
pub fn fire_on<'a>(
    drawing: &'a Drawing<'a>,
    list: &'a [u8],
    marking: &mut [u16],
    answers: &mut [u8],
) -> Result<usize, Refusal>
    ensures { fire_called result marking.new answers.new ≡ fire_orders drawing.now.file marking.old list.now answers.old }
{
    // Two types, so the choice stands where they are made.
    if is_small(most_slots(drawing), drawing.file().len()) {
        return Orders::<1024> { drawing, list }.fire_in(marking, answers, true);
    }
    Orders::<20480> { drawing, list }.fire_in(marking, answers, true)
}
