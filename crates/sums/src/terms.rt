// The terms of an arc expression under a binding, by recursion over its bytes.
// Nothing is asked of the bytes: where they hold a tree, what comes out is the tree's.
ghost use Rattle.std.specs.Prelude.{◌≡◌, ◌∷◌, ◌≤◌, ◌+◌, length};
ghost use Rattle.reading.specs.Basics.{byte_at};
ghost use Rattle.sums.specs.internal.Loaded.{ListedAt, byte_of};

use crate::bound_arc::BoundArc;
use arc_expressions::Operator;
use firing::Arc;
use reading::word_at;
use runs::{join, merge, scale, scaled, store};

// An arc expression's multiset: how many terms lie in the room, the count of every other rank, and the place after the expression.
#[derive(Clone, Copy, Debug, PartialEq, Eq)]
pub struct Multiset {
    pub many: usize,
    pub rest: u16,
    pub next: usize,
}

impl BoundArc<'_> {
    // A count of one colour or pair, 0x40, with so many levels left for what is inside.
    fn list_count(&self, left: u8, at: usize, room: &mut [Arc]) -> Multiset
        requires { byte_at self.now.bound.file.now at ≡ 0x40 }
        ensures is { ListedAt self.now (left + 1) at room.old room.new result }
        ensures within { result.many ≤ length room.old }
    {
        let k = self.bound.rank_at(self.entry.paired, left, at + 3);
        let weight = word_at(self.bound.file, at + 1) as u16;
        let many = if k.rank < self.entry.ranks {
            let place = k.rank as u16;
            store(room, Arc { place, weight })
        } else {
            0
        };
        Multiset {
            many,
            rest: 0,
            next: k.next,
        }
    }

    // Two expressions one after the other: their sum, 0x42, or the first less the second, 0x43.
    #[cycle(list)]
    fn list_joined(&self, op: Operator, left: u8, at: usize, room: &mut [Arc]) -> Multiset
        requires { byte_at self.now.bound.file.now at ≡ byte_of op }
        ensures is { ListedAt self.now (left + 1) at room.old room.new result }
        ensures within { result.many ≤ length room.old }
    {
        let e = self.list_terms(left, at + 1, room);
        let f = self.list_terms(left, e.next, &mut room[e.many..]);
        Multiset {
            many: merge(op, room, e.many, e.many + f.many, e.rest, f.rest),
            rest: join(op, e.rest, f.rest),
            next: f.next,
        }
    }

    // A factor times an expression, 0x44.
    #[cycle(list)]
    fn list_times(&self, left: u8, at: usize, room: &mut [Arc]) -> Multiset
        requires { byte_at self.now.bound.file.now at ≡ 0x44 }
        ensures is { ListedAt self.now (left + 1) at room.old room.new result }
        ensures within { result.many ≤ length room.old }
    {
        let factor = word_at(self.bound.file, at + 1) as u16;
        let e = self.list_terms(left, at + 3, room);
        scale(&mut room[..e.many], factor);
        Multiset {
            rest: scaled(factor, e.rest),
            ..e
        }
    }

    // The terms of the arc expression at a place, with so many levels left, for the ranks of the arc's place: into the front of a room.
    #[cycle(list)]
    pub fn list_terms(&self, left: u8, at: usize, room: &mut [Arc]) -> Multiset
        ensures is { ListedAt self.now left at room.old room.new result }
        ensures within { result.many ≤ length room.old }
    {
        let nothing = Multiset {
            many: 0,
            rest: 0,
            next: at,
        };
        let file = self.bound.file;
        if file.len() <= at {
            return nothing;
        }
        let b = file[at];
        if b == 0x41 {
            return Multiset {
                many: 0,
                rest: word_at(file, at + 1) as u16,
                next: at + 3,
            };
        }
        if left < 1 {
            return nothing;
        }
        match b {
            0x40 => self.list_count(left - 1, at, room),
            0x42 => self.list_joined(Operator::Plus, left - 1, at, room),
            0x43 => self.list_joined(Operator::Minus, left - 1, at, room),
            0x44 => self.list_times(left - 1, at, room),
            _ => nothing,
        }
    }
}
