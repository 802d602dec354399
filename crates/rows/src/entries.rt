// The entries of a transition's arcs of a kind, one after the other.
ghost use Rattle.std.specs.Prelude.{◌≤◌, ◌-◌};
ghost use Rattle.std.specs.Iterator.{at_most};
ghost use Rattle.firing.specs.internal.Kinds.{kind_number};
ghost use Rattle.rows.specs.internal.EntrySteps.{Begun, Told};

use firing::Kind;
use plan::{Entry, arc_of};
use prepared::Transition;

// Those of a row of 32 in the packed table that are still to come, up to the first that holds no arc.
#[derive(Drop)]
pub struct Entries<'a> {
    pub plan: &'a [u32; 3584],
    pub at: usize,
    pub end: usize,
    ghost inside: { end ≤ 3072 },
}

impl Iterator for Entries<'_> {
    type Item = Entry;

    ghost next_gives = { λ s r t. Told s.plan.now s.at s.end r t.plan.now t.at t.end };

    ghost remaining = { λ s. at_most (s.end - s.at) };

    fn next(&mut self) -> Option<Entry> {
        if self.end <= self.at {
            return None;
        }
        let entry = arc_of(self.plan, self.at)?;
        self.at += 1;
        Some(entry)
    }
}

// All of a transition's kind.
pub fn entries_of<'a>(transition: &Transition<'a>, kind: Kind) -> Entries<'a>
    ensures { Begun transition.now (kind_number kind) result.plan.now result.at result.end }
{
    let base = transition.number() * 96 + (kind as usize) * 32;
    Entries {
        plan: transition.plan(),
        at: base,
        end: base + 32,
    }
}
