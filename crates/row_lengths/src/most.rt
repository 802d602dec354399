// How many arcs a transition's rows have at most, whatever the binding.
ghost use Rattle.std.specs.Prelude.{◌≤◌};
ghost use Rattle.prepared.specs.internal.Drawn.{its_net, IsInside};
ghost use Rattle.firing.specs.internal.Kinds.{kind_number};
ghost use Rattle.row_lengths.specs.internal.MostRows.{MostKind, MostRow};

use crate::arcs::most_arcs;
use firing::Kind;
use prepared::Transition;
use rows::entries_of;
use sums::BoundArc;

// How many a transition's arcs of a kind give at most. As kind_slots of rows, but for what is added of each arc: a function handed in for it would need the
// clauses of both.
fn most_kind(transition: &Transition, kind: Kind) -> usize
    ensures is { MostKind (its_net transition.now) transition.now.number (kind_number kind) result }
    ensures inside { IsInside transition.now.drawing.file transition.now.drawing.plan transition.now.number }
    ensures small { result ≤ 2097120 }
{
    let env = [0; 32];
    let bound = transition.bound(&env);
    let mut total: usize = 0;
    for entry in entries_of(transition, kind) {
        total += most_arcs(&BoundArc { bound, entry });
    }
    total
}

// How many arcs a row of a transition has at most.
pub fn most_row(transition: &Transition) -> usize
    ensures is { MostRow (its_net transition.now) transition.now.number result }
    ensures small { result ≤ 6291360 }
{
    let takes = most_kind(transition, Kind::Take);
    let puts = most_kind(transition, Kind::Put);
    let hinders = most_kind(transition, Kind::Hinder);
    takes + puts + hinders
}
