// How many arcs an arc expression gives at most, whatever the binding: by recursion over its bytes.
// Nothing is asked of the bytes: where they hold a tree, what comes out is the tree's.
ghost use Rattle.std.specs.Prelude.{◌≡◌, List, ℕ, ◌≤◌, ◌<◌, length};
ghost use Rattle.net.specs.Net.{Place};
ghost use Rattle.net.specs.Reader.{read_expression};
ghost use Rattle.evaluation.specs.internal.Evaluated.{scope_in, place_by};
ghost use Rattle.row_lengths.specs.internal.MostArcs.{others_of, most_less, number_at, MostTold, MostArc};

use reading::{byte_at, word_at};
use sums::BoundArc;

// The most arcs of an expression, and the place after it.
#[derive(Clone, Copy, Debug, PartialEq, Eq)]
pub struct Most {
    pub arcs: usize,
    pub next: usize,
}

// How many of the ranks have something left of a count of every colour, less a count of one.
fn others(ranks: usize, count: usize, less: usize) -> usize
    ensures is { result ≡ others_of ranks count less }
    ensures small { result ≤ ranks }
{
    if count < 1 {
        0
    } else if less < count {
        ranks
    } else {
        ranks.saturating_sub(1)
    }
}

// The most arcs of the expression at a place, which gives so many at most, less that at a second one: those left where it is a
// count of every colour (0x41) less a count of one (0x40).
fn most_less(arc: &BoundArc, arcs: usize, first: usize, second: usize) -> usize
    requires { arcs ≤ 65535 }
    ensures is { result ≡ most_less arc.now.entry.ranks arcs (number_at arc.now.bound.file.now 0x41 first) (number_at arc.now.bound.file.now 0x40 second) }
    ensures small { result ≤ 65535 }
{
    let file = arc.bound.file;
    if byte_at(file, first) != 0x41 || byte_at(file, second) != 0x40 {
        return arcs;
    }
    others(
        arc.entry.ranks,
        word_at(file, first + 1),
        word_at(file, second + 1),
    )
}

// The most arcs of the arc expression at a place, with so many levels left. Any colours do: they tell the place after a count.
fn most_at(arc: &BoundArc, left: u8, at: usize) -> Most
    ensures is { (known : List Place) (first second : ℕ) → MostTold arc.now.entry.ranks result
        (read_expression arc.now.bound.file.now (scope_in arc.now.bound.plan.now known) (place_by arc.now.entry.paired first second) left at) }
    ensures small { result.arcs ≤ 65535 }
{
    let BoundArc { bound, entry } = *arc;
    if bound.file.len() <= at {
        return Most { arcs: 0, next: at };
    }
    let b = bound.file[at];
    if b == 0x41 {
        return Most {
            arcs: entry.ranks,
            next: at + 3,
        };
    }
    if left < 1 {
        return Most { arcs: 0, next: at };
    }
    match b {
        0x40 => Most {
            arcs: 1,
            next: bound.rank_at(entry.paired, left - 1, at + 3).next,
        },
        0x42 => {
            let e = most_at(arc, left - 1, at + 1);
            let f = most_at(arc, left - 1, e.next);
            Most {
                arcs: entry.ranks.min(e.arcs + f.arcs),
                next: f.next,
            }
        }
        0x43 => {
            let e = most_at(arc, left - 1, at + 1);
            let f = most_at(arc, left - 1, e.next);
            Most {
                arcs: most_less(arc, e.arcs, at + 1, e.next),
                next: f.next,
            }
        }
        0x44 => most_at(arc, left - 1, at + 3),
        _ => Most { arcs: 0, next: at },
    }
}

// The most arcs of the expression of an arc, for the ranks of its place.
pub fn most_arcs(arc: &BoundArc) -> usize
    ensures is { MostArc arc.now.bound.file.now arc.now.bound.plan.now arc.now.entry result }
    ensures small { result ≤ 65535 }
{
    most_at(arc, 16, arc.entry.expression).arcs
}
