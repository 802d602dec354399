// A short way for the commonest sums, 0x42 with nothing but 0x42 and 0x40 inside: their counts one after the other. The recursion of terms.rt
// lists every expression, and takes over where something else stands inside; both give the same counts.
// Nothing is asked of the bytes: where operands stand there, what comes out is theirs.
ghost use Rattle.std.specs.Prelude.{◌≡◌, false, [], ◌∷◌, ℕ, ◌≤◌, ◌<◌, length, take};
ghost use Rattle.arc_expressions.specs.declared.operator.Operator.TheVariants.{Plus};
ghost use Rattle.runs.specs.internal.Terms.{term, Terms, joined, join_by, Laid};
ghost use Rattle.sums.specs.internal.Sums.{SummedAt};

use crate::bound_arc::BoundArc;
use arc_expressions::Operator;
use firing::Arc;
use reading::{byte_at, word_at};
use runs::{insert, merge};

// The operands of a sum that are still to come: the place of the first, and how many they are.
#[derive(Clone, Copy, Debug, PartialEq, Eq)]
pub struct Operands {
    pub next: usize,
    pub ahead: usize,
}

impl Operands {
    // Whether another run follows: an operand is to come, and a count stands next.
    fn go_on(self, file: &[u8]) -> bool {
        0 < self.ahead && byte_at(file, self.next) == 0x40
    }
}

// How far a sum was gone through: how many terms lie in the room, and the operands that are still to come.
#[derive(Clone, Copy, Debug, PartialEq, Eq)]
pub struct Summed {
    pub many: usize,
    pub left: Operands,
}

// Whether a run ends before a byte: no operand is to come, the byte opens neither a count nor a sum, or the run has 16 terms.
// A sum is not opened with more than 16,384 to come.
fn ends_run(b: usize, ahead: usize, terms: usize) -> bool
    ensures { result ≡ false → (1 ≤ ahead) × (b ≡ 0x42 → ahead ≤ 16384) × ((b ≡ 0x42 → ⊥) → b ≡ 0x40) }
{
    if ahead < 1 {
        return true;
    }
    match b {
        0x42 => 16384 < ahead,
        0x40 => 16 <= terms,
        _ => true,
    }
}

impl BoundArc<'_> {
    // Adds a count of a rank to the terms at a room's front, if the arc's place has that rank: how many there are then.
    fn add_count(&self, rank: usize, weight: u16, many: usize, room: &mut [Arc]) -> usize
        ensures inside { rank < self.now.entry.ranks → many < length room.old → Terms self.now.entry.ranks 0 (take many room.old)
            → Laid (joined (join_by Plus) 0 0 (take many room.old) (term rank weight ∷ [])) room.old room.new result }
        ensures outside { self.now.entry.ranks ≤ rank → (room.new ≡ room.old) × (result ≡ many) }
        ensures within { many ≤ length room.old → result ≤ length room.old }
    {
        if self.entry.ranks <= rank {
            return many;
        }
        let place = rank as u16;
        insert(room, many, Arc { place, weight })
    }

    // The terms of up to 16 counts. It ends before an operand that is neither a count nor a sum.
    fn sum_counts(&self, from: Operands, room: &mut [Arc]) -> Summed
        ensures is { SummedAt self.now from.next from.ahead room.old room.new result }
        ensures within { result.many ≤ length room.old }
    {
        let bound = self.bound;
        let mut many = 0;
        let Operands {
            mut next,
            mut ahead,
        } = from;
        for _ in 0..64 {
            let b = byte_at(bound.file, next);
            if ends_run(b, ahead, many) {
                break;
            }
            if b == 0x42 {
                ahead += 1;
                next += 1;
            } else {
                let k = bound.rank_at(self.entry.paired, 15, next + 3);
                let weight = word_at(bound.file, next + 1) as u16;
                many = self.add_count(k.rank, weight, many, room);
                next = k.next;
                ahead -= 1;
            }
        }
        Summed {
            many,
            left: Operands { next, ahead },
        }
    }

    // The terms of up to 16 * 2 ^ level operands: two runs of half as many, joined.
    fn sum_runs(&self, level: u8, from: Operands, room: &mut [Arc]) -> Summed
        ensures is { SummedAt self.now from.next from.ahead room.old room.new result }
        ensures within { result.many ≤ length room.old }
    {
        if level < 1 {
            return self.sum_counts(from, room);
        }
        let a = self.sum_runs(level - 1, from, room);
        if !a.left.go_on(self.bound.file) {
            return a;
        }
        let b = self.sum_runs(level - 1, a.left, &mut room[a.many..]);
        Summed {
            many: merge(Operator::Plus, room, a.many, a.many + b.many, 0, 0),
            left: b.left,
        }
    }

    // The terms of the sum of counts at a place: after each run one as long, and both joined.
    pub fn sum_terms(&self, at: usize, room: &mut [Arc]) -> Summed
        ensures is { SummedAt self.now at 1 room.old room.new result }
        ensures within { result.many ≤ length room.old }
    {
        let start = Operands { next: at, ahead: 1 };
        let mut sum = self.sum_counts(start, room);
        for level in 0..9 {
            if !sum.left.go_on(self.bound.file) {
                break;
            }
            let more = self.sum_runs(level, sum.left, &mut room[sum.many..]);
            sum = Summed {
                many: merge(Operator::Plus, room, sum.many, sum.many + more.many, 0, 0),
                left: more.left,
            };
        }
        sum
    }
}
