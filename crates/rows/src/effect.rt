// Loads the effect of a binding as a row, into a lent list of arcs.
ghost use Rattle.std.specs.Prelude.{◌≡◌, ◌≤◌, ◌<◌, length, IfOk};
ghost use Rattle.firing.specs.internal.Kinds.{kind_number};
ghost use Rattle.firing.specs.internal.RowLists.{EndsWithin};
ghost use Rattle.prepared.specs.internal.Drawn.{its_net};
ghost use Rattle.rows.specs.internal.Loading.{KindLoaded, LoadsRest, LoadsRow, LoadsBound};

use crate::entries::entries_of;
use bindings::has_effect;
use evaluation::Bound;
use firing::{Answer, Arc, Ends, Kind, some_lacks};
use multiset::load_arc;
use prepared::Transition;

// The arcs of a kind, laid into a room's front: how many they are. Its bound is built once a row.
fn load_kind(transition: &Transition, bound: &Bound, kind: Kind, room: &mut [Arc]) -> usize
    requires { (bound.now.file.now ≡ transition.now.drawing.file) × (bound.now.plan.now ≡ transition.now.drawing.plan) }
    ensures is { KindLoaded transition.now.drawing.file (its_net transition.now) bound.now.env.now transition.now.number (kind_number kind) room.old room.new result }
    ensures inside { transition.now.number < length (its_net transition.now).transitions }
    ensures within { result ≤ length room.old }
{
    let mut end = 0;
    for entry in entries_of(transition, kind) {
        end += load_arc(bound, entry, &mut room[end..]);
    }
    end
}

// The puts and hinders of a binding, behind its takes: where each kind ends.
fn load_rest(transition: &Transition, bound: &Bound, takes: usize, arcs: &mut [Arc]) -> Ends
    requires its { (bound.now.file.now ≡ transition.now.drawing.file) × (bound.now.plan.now ≡ transition.now.drawing.plan) }
    requires inside { takes ≤ length arcs.old }
    ensures is { LoadsRest transition.now.drawing.file (its_net transition.now) bound.now.env.now transition.now.number takes arcs.old arcs.new result }
    ensures within { EndsWithin arcs.new result.takes result.puts result.hinders }
{
    let puts = takes + load_kind(transition, bound, Kind::Put, &mut arcs[takes..]);
    let hinders = puts + load_kind(transition, bound, Kind::Hinder, &mut arcs[puts..]);
    Ends {
        takes,
        puts,
        hinders,
    }
}

// Its whole row, without asking whether it has an effect: where each kind ends.
pub fn load_row(transition: &Transition, env: &[u8; 32], arcs: &mut [Arc]) -> Ends
    ensures is { LoadsRow transition.now.drawing.file (its_net transition.now) env.now transition.now.number arcs.old arcs.new result }
    ensures within { EndsWithin arcs.new result.takes result.puts result.hinders }
{
    let bound = transition.bound(env);
    let takes = load_kind(transition, &bound, Kind::Take, arcs);
    load_rest(transition, &bound, takes, arcs)
}

// Loads a binding's row as far as firing it needs: where each kind ends, or the answer that comes before it is loaded whole.
// Its takes tell that one is lacking before its puts and hinders are loaded. Built into its callers: the search goes through it at every binding.
#[inline]
pub fn load_bound(
    transition: &Transition,
    env: &[u8; 32],
    m: &[u16],
    arcs: &mut [Arc],
) -> Result<Ends, Answer>
    ensures told { LoadsBound transition.now.drawing.file (its_net transition.now) env.now transition.now.number m.now arcs.old arcs.new result }
    ensures within { IfOk result (λ ends. EndsWithin arcs.new ends.takes ends.puts ends.hinders) }
{
    if !has_effect(transition, env) {
        return Err(Answer::NoRow);
    }
    let bound = transition.bound(env);
    let takes = load_kind(transition, &bound, Kind::Take, arcs);
    if some_lacks(&arcs[..takes], m) {
        return Err(Answer::Lacking);
    }
    Ok(load_rest(transition, &bound, takes, arcs))
}
