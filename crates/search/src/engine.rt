// The search for the first binding that fires, on a net that has been read.
ghost use Rattle.std.specs.Prelude.{◌≡◌, ℕ, ◌≤◌, length};
ghost use Rattle.reading.specs.Basics.{product, below};
ghost use Rattle.firing.specs.Firing.{first};
ghost use Rattle.firing.specs.Replies.{searched};
ghost use Rattle.net.specs.Net.{flat_place_count};
ghost use Rattle.bindings.specs.Replies.{bytes_of};
ghost use Rattle.bindings.specs.internal.Bindings.{BindsIts, its_sizes};
ghost use Rattle.prepared.specs.internal.Drawn.{net_of};
ghost use Rattle.rows.specs.internal.Effects.{room};
ghost use Rattle.search.specs.internal.Searched.{fires_its, first_fires, search_told, SearchWithin};

use bindings::{Numbered, Order, next_binding, order_at, space_of};
use firing::{Answer, Arc, Searched, rest_answer, row_arcs};
use prepared::{Drawing, Transition};
use reading::once_more;
use rows::{is_small, load_bound, most_slots};

// A net that was read, and a marking of its flat places. Each of its rows has room in a list of so many arcs.
#[derive(Clone, Copy)]
struct Marked<'a, const ARCS: usize> {
    drawing: &'a Drawing<'a>,
    marking: &'a [u16],
    ghost few: { ARCS ≤ 20480 },
    ghost roomy: { room drawing.now.file (net_of drawing.now) ≤ ARCS },
    ghost sized: { length marking.now ≡ flat_place_count (net_of drawing.now) },
}

impl<const ARCS: usize> Marked<'_, ARCS> {
    // Whether a binding of a transition, whose colours env has, would fire. It and the next ask that the transition is one of the drawing: a struct of both
    // would be made at each.
    fn fires_bound(self, transition: &Transition, env: &[u8; 32], arcs: &mut [Arc; ARCS]) -> bool
        requires { transition.now.drawing ≡ self.drawing.now }
        ensures { (i : ℕ) → BindsIts transition.now i env.now → result ≡ fires_its transition.now self.entry.marking.now i }
    {
        match load_bound(transition, env, self.marking, arcs) {
            Ok(ends) => rest_answer(row_arcs(arcs, ends), self.marking) == Answer::Fired,
            Err(_) => false,
        }
    }

    // The number of a transition's first binding that would fire.
    fn search_bindings(self, transition: &Transition, arcs: &mut [Arc; ARCS]) -> Searched<usize>
        requires { transition.now.drawing ≡ self.drawing.now }
        ensures is { first (fires_its transition.now self.entry.marking.now) (below (product (its_sizes transition.now))) ≡ searched (λ i. i) result }
        ensures small { result.tried ≤ 4228250625 }
    {
        let many = space_of(transition.plan(), transition.number());
        let mut env = [0u8; 32];
        for i in 0..many {
            if self.fires_bound(transition, &env, arcs) {
                return Searched {
                    found: Some(i),
                    tried: i + 1,
                };
            }
            next_binding(transition, &mut env);
        }
        Searched {
            found: None,
            tried: many,
        }
    }

    // The first binding that would fire.
    fn search_all(self, arcs: &mut [Arc; ARCS]) -> Searched<Numbered>
        ensures told { first_fires (net_of self.entry.drawing.now) self.entry.marking.now ≡ search_told (net_of self.entry.drawing.now) result }
        ensures within { SearchWithin (net_of self.entry.drawing.now) result }
    {
        let mut tried = 0;
        for t in 0..self.drawing.transitions() {
            let here = self.search_bindings(&self.drawing.transition(t), arcs);
            tried += here.tried;
            if let Some(index) = here.found {
                return Searched {
                    found: Some(Numbered {
                        transition: t,
                        index,
                    }),
                    tried,
                };
            }
        }
        Searched { found: None, tried }
    }

    // Its order.
    fn first_with(self, arcs: &mut [Arc; ARCS]) -> Searched<Order>
        ensures { first_fires (net_of self.entry.drawing.now) self.entry.marking.now ≡ searched bytes_of result }
    {
        let Searched { found, tried } = self.search_all(arcs);
        // Taken apart by hand: with `found.map(..)` the proof did not close.
        let Some(b) = found else {
            return Searched { found: None, tried };
        };
        Searched {
            found: Some(order_at(&self.drawing.transition(b.transition), b.index)),
            tried,
        }
    }

    // With a list of its own. Kept apart (once_more).
    #[inline(never)]
    fn first_in(self, again: bool) -> Searched<Order>
        ensures { first_fires (net_of self.entry.drawing.now) self.entry.marking.now ≡ searched bytes_of result }
    {
        if once_more(self.drawing.file(), again) {
            return self.first_in(false);
        }
        let mut arcs = [Arc::default(); ARCS];
        self.first_with(&mut arcs)
    }
}

// The first order that would fire on a marking of a net's flat places. The larger list of arcs has room for every net.
pub fn first_on<'a>(drawing: &'a Drawing<'a>, marking: &'a [u16]) -> Searched<Order>
    requires { length marking.now ≡ flat_place_count (net_of drawing.now) }
    ensures { first_fires (net_of drawing.now) marking.now ≡ searched bytes_of result }
{
    // Two types, so the choice stands where they are made.
    if is_small(most_slots(drawing), drawing.file().len()) {
        return Marked::<1024> { drawing, marking }.first_in(true);
    }
    Marked::<20480> { drawing, marking }.first_in(true)
}
