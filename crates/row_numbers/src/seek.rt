// The way back: from a row number to its binding.
ghost use Rattle.std.specs.Prelude.{◌<◌, IfSome};
ghost use Rattle.row_numbers.specs.internal.Walked.{SoughtTold, LocatedTold};

use crate::walk::count_one;
use bindings::{Numbered, every_binding_has_row, next_binding, space_of};
use prepared::{Drawing, Transition};

// Seeks a row of a transition, counted from its first, among its bindings one by one: its binding's number there, or how many rows there are.
fn seek_guarded(transition: &Transition, row: usize) -> Result<usize, usize>
    ensures { SoughtTold transition.now row result }
{
    let mut env = [0u8; 32];
    let mut count: usize = 0;
    for i in 0..space_of(transition.plan(), transition.number()) {
        let next = count + count_one(transition, &env);
        if row < next {
            return Ok(i);
        }
        count = next;
        next_binding(transition, &mut env);
    }
    Err(count)
}

// Seeks a row of a transition, counted from its first. Where every binding has a row, they follow each other.
fn seek_in(transition: &Transition, row: usize) -> Result<usize, usize>
    ensures { SoughtTold transition.now row result }
{
    let plan = transition.plan();
    let t = transition.number();
    if !every_binding_has_row(plan, t) {
        return seek_guarded(transition, row);
    }
    let size = space_of(plan, t);
    (row < size).then_some(row).ok_or(size)
}

// The binding of a row, if there is one. A function of its own in the built code too: built into its caller, a net just read would be put together anew at
// each binding.
#[inline(never)]
pub fn seek_row(drawing: &Drawing, row: usize) -> Option<Numbered>
    ensures told { LocatedTold drawing.now row result }
    ensures room { IfSome result (λ b. b.transition < 32) }
{
    let mut left = row;
    for t in 0..drawing.transitions() {
        match seek_in(&drawing.transition(t), left) {
            Ok(index) => {
                return Some(Numbered {
                    transition: t,
                    index,
                });
            }
            Err(rows) => left -= rows,
        }
    }
    None
}
