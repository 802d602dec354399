// The arcs of an arc expression under a binding, laid into a lent room.
ghost use Rattle.std.specs.Prelude.{◌≡◌, ◌≤◌, ◌<◌, ◌+◌, length};
ghost use Rattle.reading.specs.Basics.{byte_at};
ghost use Rattle.runs.specs.internal.Terms.{Laid};
ghost use Rattle.sums.specs.internal.Loaded.{ListedAt, one_arc, rank_arcs, TermsLoaded, ArcLoaded};

use evaluation::Bound;
use firing::Arc;
use plan::Entry;
use reading::{byte_at, once_more, word_at};
use runs::store;
use sums::{BoundArc, Multiset};

// Stores an arc in a room's first slot, if its weight is above 0: how many slots it takes. Where there is none it stores nothing.
fn append(room: &mut [Arc], arc: Arc) -> usize
    ensures is { (0 < arc.weight → 0 < length room.old) → Laid (one_arc arc.place arc.weight) room.old room.new result }
    ensures within { result ≤ length room.old }
{
    if arc.weight < 1 {
        return 0;
    }
    store(room, arc)
}

// The arcs of so many flat places one after the other, each with the weight that every rank without a term has; none where it is 0.
fn fill(room: &mut [Arc], place: usize, many: usize, weight: u16) -> usize
    requires { place + many ≤ 65535 }
    ensures is { many ≤ length room.old → Laid (rank_arcs place many (λ _. weight)) room.old room.new result }
    ensures within { result ≤ length room.old }
{
    if weight < 1 || room.len() < many {
        return 0;
    }
    for i in 0..many {
        let place = (place + i) as u16;
        room[i] = Arc { place, weight };
    }
    many
}

// Turns terms into the arcs of a place whose flat places begin at start. It ends at a term whose rank is not the next or a later one below count.
fn load_terms(start: usize, count: usize, terms: &[Arc], rest: u16, room: &mut [Arc]) -> usize
    requires { start + count ≤ 65535 }
    ensures is { TermsLoaded start count terms.now rest room.old room.new result }
    ensures within { result ≤ length room.old }
{
    let mut end = 0;
    let mut rank = 0;
    for term in terms {
        let next = term.place as usize;
        if next < rank || count <= next {
            return end;
        }
        end += fill(&mut room[end..], start + rank, next - rank, rest);
        let place = (start + next) as u16;
        end += append(&mut room[end..], Arc { place, ..*term });
        rank = next + 1;
    }
    end + fill(&mut room[end..], start + rank, count - rank, rest)
}

// The terms of an arc's expression.
// A sum of counts is gone through operand after operand; where something else stands inside, the terms are listed by recursion.
fn list_all(arc: &BoundArc, room: &mut [Arc]) -> Multiset
    ensures is { ListedAt arc.now 16 arc.now.entry.expression room.old room.new result }
    ensures within { result.many ≤ length room.old }
{
    let at = arc.entry.expression;
    if byte_at(arc.bound.file, at) == 0x42 {
        let sum = arc.sum_terms(at, room);
        if sum.left.ahead < 1 {
            return Multiset {
                many: sum.many,
                rest: 0,
                next: sum.left.next,
            };
        }
    }
    arc.list_terms(16, at, room)
}

// The arcs of any expression but 0x40: its terms first, behind the slots for its arcs.
// Kept apart (once_more) from load_arc: the way of 0x40 stays short.
#[inline(never)]
fn load_listed(arc: &BoundArc, room: &mut [Arc], again: bool) -> usize
    requires { byte_at arc.now.bound.file.now arc.now.entry.expression ≡ 0x40 → ⊥ }
    ensures is { ArcLoaded arc.now.bound arc.now.entry room.old room.new result }
    ensures within { result ≤ length room.old }
{
    if once_more(arc.bound.file, again) {
        return load_listed(arc, room, false);
    }
    let entry = arc.entry;
    if room.len() < entry.ranks {
        return 0;
    }
    let (front, behind) = room.split_at_mut(entry.ranks);
    let m = list_all(arc, behind);
    load_terms(entry.start, entry.ranks, &behind[..m.many], m.rest, front)
}

// The arcs of an arc under a binding, by its entry: how many lie in the room's front then. A count of one colour or pair, 0x40, has one arc at most.
// Bound and entry come apart: put together for each arc of a row they would be copied at each, and 0x40 needs no copy.
pub fn load_arc(bound: &Bound, entry: Entry, room: &mut [Arc]) -> usize
    ensures is { ArcLoaded bound.now entry room.old room.new result }
    ensures within { result ≤ length room.old }
{
    let file = bound.file;
    if byte_at(file, entry.expression) != 0x40 {
        let arc = BoundArc {
            bound: *bound,
            entry,
        };
        return load_listed(&arc, room, true);
    }
    let rank = bound.rank_at(entry.paired, 15, entry.expression + 3).rank;
    if entry.ranks <= rank {
        return 0;
    }
    let place = (entry.start + rank) as u16;
    let weight = word_at(file, entry.expression + 1) as u16;
    append(room, Arc { place, weight })
}
