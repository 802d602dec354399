// A transition of a net file that was read and accepted, with its table. That it is one lies in the type.
ghost use Rattle.std.specs.Prelude.{◌≡◌, ◌<◌, length, get_or, MatchOption};

use crate::drawing::Drawing;
use evaluation::Bound;
use plan::{Own, guard_of, own_of};
use std::marker::Model;

// A file, its table, and a transition's number in it. A Drawing's two fields again: through one each would be a step further, and the methods would be the same.
#[derive(Clone, Drop)]
pub struct Transition<'a> {
    pub(crate) file: &'a [u8],
    pub(crate) plan: &'a [u32; 3584],
    pub(crate) number: usize,
}

impl<'a> Model for Transition<'a> {
    ghost use Rattle.prepared.specs.internal.Drawn.{DrawnTransition, drawn, drawn_transition, IsInside};

    ghost Value = { DrawnTransition };

    ghost view = { λ t. drawn_transition (drawn t.file.now t.plan.now) t.number };

    ghost invariant = { λ t. IsInside t.file.now t.plan.now t.number };
}

impl<'a> Transition<'a> {
    ghost use Rattle.net.specs.Net.{transition_at};
    ghost use Rattle.plan.specs.internal.Layout.{guards_in, OwnTold};
    ghost use Rattle.prepared.specs.internal.Drawn.{its_net, IsDrawn, Stands};
    ghost use Rattle.prepared.specs.internal.TransitionVariables.{own_of};

    // Its number in its net.
    pub fn number(&self) -> usize
        ensures is { result ≡ self.now.number }
        ensures inside { result < length (its_net self.now).transitions }
        ensures small { result < 32 }
    {
        self.number
    }

    // Its net's file.
    pub fn file(&self) -> &'a [u8]
        ensures is { result.now ≡ self.now.drawing.file }
        ensures known { IsDrawn self.now.drawing.file self.now.drawing.plan }
    {
        self.file
    }

    // Its net's table.
    pub fn plan(&self) -> &'a [u32; 3584]
        ensures is { result.now ≡ self.now.drawing.plan }
        ensures known { IsDrawn self.now.drawing.file self.now.drawing.plan }
    {
        self.plan
    }

    // Its net's file and table.
    pub fn drawing(&self) -> Drawing<'a>
        ensures { result ≡ self.now.drawing }
    {
        Drawing::of(self.file, self.plan)
    }

    // Its net's file and table with a colour for each variable.
    pub fn bound<'b>(&'b self, env: &'b [u8; 32]) -> Bound<'b>
        ensures is { (result.file.now ≡ self.now.drawing.file) × (result.plan.now ≡ self.now.drawing.plan) × (result.env.now ≡ env.now) }
        ensures known { IsDrawn self.now.drawing.file self.now.drawing.plan }
    {
        let Transition { file, plan, .. } = *self;
        Bound { file, plan, env }
    }

    // Where its guard stands in the file, if it has one.
    pub fn guard(&self) -> Option<usize>
        ensures is { MatchOption result (get_or (guards_in self.now.drawing.plan) self.now.number 0 ≡ 0) (λ place. (0 < place) × (place ≡ get_or (guards_in self.now.drawing.plan) self.now.number 0)) }
        ensures known { Stands self.now }
    {
        guard_of(self.plan, self.number)
    }

    // Its own variable number k with the size of its set, by rising number; none past the last.
    pub fn own(&self, k: usize) -> Option<Own>
        requires { k < 4 }
        ensures is { OwnTold (get_or (own_of (its_net self.now) (transition_at (its_net self.now) self.now.number)) k 0) result }
        ensures known { Stands self.now }
    {
        own_of(self.plan, self.number, k)
    }
}
