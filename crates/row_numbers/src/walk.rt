// The walk over all bindings in order, which gives each its row number.
ghost use Rattle.std.specs.Prelude.{◌≡◌, ℕ, ◌≤◌, ◌<◌, ◌+◌, length, get_or, if◌then◌else◌};
ghost use Rattle.reading.specs.Basics.{product};
ghost use Rattle.prepared.specs.internal.Drawn.{net_of, its_net, IsDrawn};
ghost use Rattle.bindings.specs.internal.Bindings.{its_sizes, BindsIts};
ghost use Rattle.bindings.specs.internal.Legal.{every_row};
ghost use Rattle.row_numbers.specs.internal.Walked.{it_takes, its_effects, entries_at, entries, NumbersFrom, Starts};

use bindings::{every_binding_has_row, has_effect, next_binding, space_of};
use prepared::{Drawing, Transition};
use reading::store;

// How many rows a binding has: one, if it has an effect.
pub fn count_one(transition: &Transition, env: &[u8; 32]) -> usize
    ensures is { (i : ℕ) → BindsIts transition.now i env.now
        → result ≡ (if it_takes transition.now i then 1 else 0) }
    ensures small { result ≤ 1 }
{
    usize::from(has_effect(transition, env))
}

// The number of a row that follows so many, or 4,294,967,295 where there is none, as the format has it.
fn number_of(count: usize, next: usize) -> u32
    requires { count < 65536 }
    ensures row { count < next → result ≡ count }
    ensures none { next ≤ count → result ≡ 4294967295 }
{
    // A plain choice: `then_some` with `unwrap_or` would only hide it.
    if count < next { count as u32 } else { u32::MAX }
}

// Numbers the bindings of a transition after so many rows, in the table from base on: how many rows there are with them.
fn number_those(transition: &Transition, base: usize, count: usize, numbers: &mut [u32]) -> usize
    requires few { count + product (its_sizes transition.now) ≤ 65536 }
    requires inside { base + product (its_sizes transition.now) ≤ 65536 }
    ensures is { result ≡ count + its_effects transition.now (product (its_sizes transition.now)) }
    ensures held { base + product (its_sizes transition.now) ≤ length numbers.old
        → NumbersFrom (its_net transition.now) transition.now.number numbers.new base count (product (its_sizes transition.now)) }
    ensures same { (j : ℕ) → j < base → get_or numbers.new j 0 ≡ get_or numbers.old j 0 }
{
    let mut env = [0u8; 32];
    let mut total = count;
    for i in 0..space_of(transition.plan(), transition.number()) {
        let next = total + count_one(transition, &env);
        store(numbers, base + i, number_of(total, next));
        total = next;
        next_binding(transition, &mut env);
    }
    total
}

// How many entries a transition with so many bindings has in the table: one for each, none where every binding has a row.
pub fn entries_of(plan: &[u32; 3584], t: usize, size: usize) -> usize
    requires { t < 32 }
    ensures is { result ≡ entries_at (every_row plan.now t) size }
    ensures small { result ≤ size }
{
    if every_binding_has_row(plan, t) {
        0
    } else {
        size
    }
}

// How many entries the table needs.
pub fn count_entries(drawing: &Drawing) -> usize
    ensures { result ≡ entries (net_of drawing.now) drawing.now.plan (length (net_of drawing.now).transitions) }
{
    let plan = drawing.plan();
    let mut total: usize = 0;
    for t in 0..drawing.transitions() {
        total += entries_of(plan, t, space_of(plan, t));
    }
    total
}

// Numbers the bindings of all transitions that have entries, and tells where each transition starts: in the table, or where every binding has a row its first row.
pub fn number_all(drawing: &Drawing, starts: &mut [usize; 32], numbers: &mut [u32])
    ensures is { entries (net_of drawing.now) drawing.now.plan (length (net_of drawing.now).transitions) ≤ length numbers.old
        → Starts (net_of drawing.now) drawing.now.plan starts.new numbers.new (length (net_of drawing.now).transitions) }
    ensures known { IsDrawn drawing.now.file drawing.now.plan }
{
    let plan = drawing.plan();
    let mut base: usize = 0;
    let mut count: usize = 0;
    for t in 0..drawing.transitions() {
        let size = space_of(plan, t);
        if every_binding_has_row(plan, t) {
            starts[t] = count;
            count += size;
        } else {
            starts[t] = base;
            count = number_those(&drawing.transition(t), base, count, numbers);
            base += size;
        }
    }
}
