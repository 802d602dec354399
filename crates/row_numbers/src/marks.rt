// Marks: a bit for each binding of a transition whose bindings do not all have rows, one after the other in words of 32.
ghost use Rattle.std.specs.Prelude.{◌≡◌, true, false, ◌||◌, ◌&&◌, ℕ, ◌+◌, ◌≤◌, ◌<◌, length, eqb};
ghost use Rattle.reading.specs.Basics.{product};
ghost use Rattle.prepared.specs.internal.Drawn.{net_of, its_net};
ghost use Rattle.bindings.specs.internal.Bindings.{its_sizes, BindsIts};
ghost use Rattle.bindings.specs.internal.Legal.{every_row};
ghost use Rattle.row_numbers.specs.internal.Walked.{it_takes, its_effects};
ghost use Rattle.row_numbers.specs.internal.Marks.{mark_at, has_row, Blank, BindingsMarked, Marked, RowsCounted};

use bindings::{every_binding_has_row, has_effect, next_binding, space_of};
use prepared::{Drawing, Transition};
use reading::element;

// Sets a mark; past the end it sets none.
fn set_mark(marks: &mut [u32; 2048], k: usize)
    ensures { (j : ℕ) → j < 65536 → mark_at marks.new j ≡ (mark_at marks.old j || eqb j k) }
{
    if k < 65536 {
        marks[k / 32] |= 1u32 << (k % 32);
    }
}

// Whether a mark is set; none is past the end.
fn mark_at(marks: &[u32; 2048], k: usize) -> bool
    ensures { result ≡ mark_at marks.now k }
{
    (element(marks, k / 32, 0) >> (k % 32)) & 1 == 1
}

// Whether a binding has a row: where every binding has one it has, else its mark tells.
pub fn has_row(plan: &[u32; 3584], t: usize, marks: &[u32; 2048], k: usize) -> bool
    requires { t < 32 }
    ensures { k < 65536 → result ≡ has_row (every_row plan.now t) marks.now k }
{
    every_binding_has_row(plan, t) || mark_at(marks, k)
}

// Whether the transition's bindings have marks, so many are left, at least 32, and none of the next 32 has a row: their marks are one word, from number k on.
pub fn has_none(plan: &[u32; 3584], t: usize, marks: &[u32; 2048], k: usize, left: usize) -> bool
    requires { t < 32 }
    ensures { result ≡ true → (every_row plan.now t ≡ false) × (32 ≤ left)
        × ((j : ℕ) → j < 32 → mark_at marks.now (k + j) ≡ false) }
{
    if every_binding_has_row(plan, t) || left < 32 || 0 < k % 32 {
        return false;
    }
    element(marks, k / 32, 1) == 0
}

// Sets the mark of a binding, if it has an effect: whether it has one.
fn mark_one(transition: &Transition, env: &[u8; 32], k: usize, marks: &mut [u32; 2048]) -> bool
    ensures { (i : ℕ) → BindsIts transition.now i env.now
        → (result ≡ it_takes transition.now i)
        × ((j : ℕ) → j < 65536 → mark_at marks.new j ≡ (mark_at marks.old j || (eqb j k && it_takes transition.now i))) }
{
    let has_row = has_effect(transition, env);
    if has_row {
        set_mark(marks, k);
    }
    has_row
}

// Sets the marks of the bindings of a transition, from base on: how many have an effect.
fn mark_those(transition: &Transition, base: usize, marks: &mut [u32; 2048]) -> usize
    requires { base + product (its_sizes transition.now) ≤ 65536 }
    ensures is { result ≡ its_effects transition.now (product (its_sizes transition.now)) }
    ensures marked { Blank marks.old base → BindingsMarked (its_net transition.now) transition.now.number marks.old marks.new base (product (its_sizes transition.now)) }
{
    let mut env = [0u8; 32];
    let mut count: usize = 0;
    for i in 0..space_of(transition.plan(), transition.number()) {
        count += usize::from(mark_one(transition, &env, base + i, marks));
        next_binding(transition, &mut env);
    }
    count
}

// Sets the marks of all bindings that need one, and tells how many rows each transition has: where every binding has a row, as many as bindings.
pub fn mark_all(drawing: &Drawing, marks: &mut [u32; 2048], counts: &mut [usize; 32])
    ensures { Blank marks.old 0
        → Marked (net_of drawing.now) drawing.now.plan marks.new (length (net_of drawing.now).transitions)
        × RowsCounted (net_of drawing.now) counts.new (length (net_of drawing.now).transitions) }
{
    let plan = drawing.plan();
    let mut base: usize = 0;
    for t in 0..drawing.transitions() {
        let many = space_of(plan, t);
        if every_binding_has_row(plan, t) {
            counts[t] = many;
        } else {
            counts[t] = mark_those(&drawing.transition(t), base, marks);
            base += many;
        }
    }
}
