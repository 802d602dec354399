// The arcs of a transition: where each arc's expression stands goes into a row of 96 slots of the table, 32 a kind.
ghost use Rattle.std.specs.Prelude.{◌≡◌, List, ℕ, ◌≤◌, ◌<◌, ◌+◌, ◌*◌, length, get_or};
ghost use Rattle.net.specs.Net.{Arc};
ghost use Rattle.net_transitions.specs.internal.TransitionTables.{over, RowHolds, ArcTold, ArcRoom, ArcsTold, ArcsRoom};

use crate::ground::Ground;
use arc_expressions::read_expression;
use net::{Read, after};
use reading::{Reason, Refusal, element, refused};

// An arc that was read: its slot, the variables in its expression, and the place after it.
#[derive(Clone, Copy)]
pub struct ArcStep {
    slot: usize,
    uses: u32,
    next: usize,
}

// The arc command at a place, over places by their sets, and the row of the table from a slot on; none where no such command stands.
fn arc_at(
    ground: &Ground,
    arcs: &[u32; 3072],
    from: usize,
    at: usize,
) -> Result<Option<ArcStep>, Refusal>
    requires { from + 96 ≤ 3072 }
    ensures is { (so_far : List Arc) → RowHolds ground.now.scope.file.now (over ground.now.scope ground.now.kinds.now) so_far (λ i. get_or arcs.now (from + i) 0)
        → ArcTold ground.now.scope.file.now (over ground.now.scope ground.now.kinds.now) so_far at (λ i. get_or arcs.now (from + i) 0) result }
    ensures room { ArcRoom (length ground.now.scope.file.now) at result }
{
    let file = ground.scope.file;
    let b = element(file, at, 0);
    if b < 0x16 || 0x18 < b {
        return Ok(None);
    }
    let next = after(file, at);
    if file.len() < next {
        return refused(Reason::CutOff, file.len());
    }
    let p = file[at + 1] as usize;
    if ground.kinds.len() <= p {
        return refused(Reason::OutOfRange, at);
    }
    let slot = (b - 0x16) as usize * 32 + p;
    // 0 says that no arc was read yet: no expression stands there, and the table is fixed memory of numbers.
    if 0 < arcs[from + slot] {
        return refused(Reason::Doubled, at);
    }
    let e = read_expression(&ground.scope, ground.kinds[p], 16, next)?;
    Ok(Some(ArcStep {
        slot,
        uses: e.uses,
        next: e.next,
    }))
}

// Sets the slots of so many places to 0, one a kind, in the row of the table from a slot on; no other slot changes.
fn clear_row(arcs: &mut [u32; 3072], from: usize, places: usize)
    requires row_in_bounds { from + 96 ≤ 3072 }
    requires few_places { places ≤ 32 }
    ensures zeros { (k p : ℕ) → k < 3 → p < places → get_or arcs.new (from + (k * 32 + p)) 0 ≡ 0 }
    ensures kept { (i : ℕ) → ((k p : ℕ) → k < 3 → p < places → i ≡ from + (k * 32 + p) → ⊥) → get_or arcs.new i 0 ≡ get_or arcs.old i 0 }
{
    for p in 0..places {
        arcs[from + p] = 0;
        arcs[from + 32 + p] = 0;
        arcs[from + 64 + p] = 0;
    }
}

// The arcs of one transition, into the row from a slot on: the place after them and the variables in their expressions; or the first fault.
pub fn read_arcs(
    ground: &Ground,
    arcs: &mut [u32; 3072],
    from: usize,
    start: usize,
) -> Result<Read, Refusal>
    requires { from + 96 ≤ 3072 }
    ensures is { ArcsTold ground.now.scope.file.now (over ground.now.scope ground.now.kinds.now) start (λ i. get_or arcs.new (from + i) 0) result }
    ensures room { ArcsRoom (length ground.now.scope.file.now) start result }
    ensures kept { (i : ℕ) → i < from → get_or arcs.new i 0 ≡ get_or arcs.old i 0 }
{
    // What stands in the slots of no place of the net is never looked at.
    clear_row(arcs, from, ground.kinds.len());
    let mut uses = 0;
    let mut at = start;
    // A while: a step is done, more or a fault.
    while let Some(arc) = arc_at(ground, arcs, from, at)? {
        arcs[from + arc.slot] = (at + 2) as u32;
        uses |= arc.uses;
        at = arc.next;
    }
    Ok(Read {
        next: at,
        set: 0,
        uses,
    })
}
