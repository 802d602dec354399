// One transition: its guard, its arcs, and its end.
ghost use Rattle.std.specs.Prelude.{◌≡◌, List, ℕ, ◌≤◌, ◌<◌, ◌+◌, ◌*◌, length, get_or};
ghost use Rattle.net.specs.Net.{Place, Transition, binding_space, in_transition};
ghost use Rattle.net.specs.internal.ReaderEnums.{bits, scope_of};
ghost use Rattle.net_transitions.specs.internal.TransitionTables.{over, guard_place, ClosedTold, ClosedRoom, inside, TransitionTold, EntryTold, TransitionRoom, EntryRoom, TransitionFew};
ghost use Rattle.net_transitions.specs.Transitions.{transition_part};
ghost use Rattle.std.proofs.Math.Option.{some};

use crate::arc::read_arcs;
use crate::ground::Ground;
use crate::space::{bindings_of, count_of};
use net::{Scope, after, read_guard_if};
use reading::{Reason, Refusal, byte_at, element, refused};

// How many transitions stand before one, and their binding space.
#[derive(Clone, Copy)]
pub struct Before {
    pub count: usize,
    pub space: usize,
    ghost narrow: { space ≤ 65536 },
}

// The end of a transition with these variables, after others: the binding space with it, or the fault.
fn close_at(
    scope: &Scope,
    set: u32,
    before: Before,
    at: usize,
    end: usize,
) -> Result<usize, Refusal>
    ensures is { (places : List Place) (transitions : List Transition) (t : Transition) → set ≡ bits (λ v. in_transition v t) 32
        → binding_space (scope_of scope.now places) transitions ≡ before.space
        → ClosedTold scope.now.file.now (scope_of scope.now places) transitions at t end result }
    ensures room { ClosedRoom result }
{
    if byte_at(scope.file, end) == 0x15 {
        return refused(Reason::StrayByte, end);
    }
    if 4 < count_of(set, scope.vars.len()) {
        return refused(Reason::ManyVariables, at);
    }
    let more = before.space + bindings_of(set, scope);
    if 65536 < more {
        return refused(Reason::WideBinding, at);
    }
    Ok(more)
}

// Where a guard stands, if there is one.
fn guard_place(ground: &Ground, at: usize) -> Option<u16>
    ensures { result ≡ guard_place ground.now.scope.file.now at }
{
    let file = ground.scope.file;
    if element(file, at, 0) == 0x15 {
        Some(after(file, at) as u16)
    } else {
        None
    }
}

// A transition that was read: where its guard stands, if it has one, its variables, the binding space with it, and the place after it.
#[derive(Clone, Copy)]
pub struct TransitionStep {
    pub guard: Option<u16>,
    pub uses: u32,
    pub space: usize,
    pub next: usize,
}

// The transition whose command stands at a place and ends before next; its row is the next of the table.
fn transition_in(
    ground: &Ground,
    before: Before,
    arcs: &mut [u32; 3072],
    at: usize,
    next: usize,
) -> Result<TransitionStep, Refusal>
    requires few { before.count < 32 }
    requires at_lt_next { at < next }
    requires next_in_bounds { next ≤ length ground.now.scope.file.now }
    ensures is { (transitions : List Transition) → binding_space (over ground.now.scope ground.now.kinds.now) transitions ≡ before.space
        → TransitionTold ground.now.scope.file.now (over ground.now.scope ground.now.kinds.now) transitions
        (some (inside ground.now.scope.file.now (over ground.now.scope ground.now.kinds.now) transitions at next)) (λ i. get_or arcs.new (before.count * 96 + i) 0) result }
    ensures room { TransitionRoom (length ground.now.scope.file.now) at result }
    ensures kept { (i : ℕ) → i < before.count * 96 → get_or arcs.new i 0 ≡ get_or arcs.old i 0 }
{
    let guard = read_guard_if(&ground.scope, next)?;
    let read = read_arcs(ground, arcs, before.count * 96, guard.next)?;
    let uses = guard.uses | read.uses;
    let space = close_at(&ground.scope, uses, before, at, read.next)?;
    Ok(TransitionStep {
        guard: guard_place(ground, next),
        uses,
        space,
        next: read.next,
    })
}

// The transition command at a place, after others, if it stands there; its row is the next of the table.
pub fn transition_at(
    ground: &Ground,
    before: Before,
    arcs: &mut [u32; 3072],
    at: usize,
) -> Result<Option<TransitionStep>, Refusal>
    ensures is { (transitions : List Transition) → length transitions ≡ before.count
        → binding_space (over ground.now.scope ground.now.kinds.now) transitions ≡ before.space
        → EntryTold ground.now.scope.file.now (over ground.now.scope ground.now.kinds.now) transitions
        (transition_part ground.now.scope.file.now (over ground.now.scope ground.now.kinds.now) transitions at)
        (λ i. get_or arcs.new (before.count * 96 + i) 0) result }
    ensures room { EntryRoom (length ground.now.scope.file.now) at result }
    ensures few { TransitionFew before.count result }
    ensures kept { (i : ℕ) → i < before.count * 96 → get_or arcs.new i 0 ≡ get_or arcs.old i 0 }
{
    if element(ground.scope.file, at, 0) != 0x14 {
        return Ok(None);
    }
    if 32 <= before.count {
        return refused(Reason::Overfull, at);
    }
    let next = after(ground.scope.file, at);
    let t = transition_in(ground, before, arcs, at, next)?;
    Ok(Some(t))
}
