// How many slots the rows of a net need in the lent list.
ghost use Rattle.std.specs.Prelude.{◌≡◌, ℕ, ◌≤◌, ◌<◌, ◌+◌, ◌/◌, leb};
ghost use Rattle.prepared.specs.internal.Drawn.{net_of, its_net};
ghost use Rattle.sums.specs.internal.Slots.{slots_for};
ghost use Rattle.firing.specs.internal.Kinds.{kind_number};
ghost use Rattle.rows.specs.internal.Slots.{KindSlotted, RowSlotted, NetSlotted};

use crate::entries::entries_of;
use firing::Kind;
use prepared::{Drawing, Transition};
use reading::byte_at;

// The slots for the expression at a place of the file, over so many ranks.
fn slots_for(file: &[u8], at: usize, count: usize) -> usize
    ensures is { result ≡ slots_for file.now at count }
    ensures small { result ≤ count }
{
    if byte_at(file, at) == 0x40 {
        return count.min(1);
    }
    count
}

// For the arcs of a kind.
fn kind_slots(transition: &Transition, kind: Kind) -> usize
    ensures is { KindSlotted (its_net transition.now) transition.now.number (kind_number kind) result }
    ensures small { result ≤ 262144 }
{
    let file = transition.file();
    let mut total: usize = 0;
    for entry in entries_of(transition, kind) {
        total += slots_for(file, entry.expression, entry.ranks);
    }
    total
}

// For the rows of a transition.
fn row_slots(transition: &Transition) -> usize
    ensures is { RowSlotted (its_net transition.now) transition.now.number result }
    ensures small { result ≤ 786432 }
{
    let takes = kind_slots(transition, Kind::Take);
    let puts = kind_slots(transition, Kind::Put);
    let hinders = kind_slots(transition, Kind::Hinder);
    takes + puts + hinders
}

// For the rows of any transition.
pub fn most_slots(drawing: &Drawing) -> usize
    ensures is { NetSlotted (net_of drawing.now) result }
    ensures small { result ≤ 786432 }
{
    let mut most: usize = 0;
    for t in 0..drawing.transitions() {
        most = most.max(row_slots(&drawing.transition(t)));
    }
    most
}

// Whether a list of 1,024 slots has the room for rows that need so many, with a file of so many bytes.
pub fn is_small(slots: usize, len: usize) -> bool
    ensures { result ≡ leb (slots + len / 2) 1024 }
{
    slots <= 1024 && len / 2 <= 1024 - slots
}
