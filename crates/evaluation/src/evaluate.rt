// Evaluates the expressions of a net file under a binding, which gives each variable's colour.
// Nothing is asked of the bytes: where they hold a tree, what comes out is the tree's.
ghost use Rattle.std.specs.Prelude.{◌≡◌, List, ℕ, ◌≤◌, ◌<◌, ◌+◌, ◌^◌, length};
ghost use Rattle.net.specs.Net.{Place};
ghost use Rattle.net.specs.Reader.{read_colour, read_guard, comparison, amount};
ghost use Rattle.evaluation.specs.internal.Evaluated.{scope_in, Valued, GuardHeld, Ranks, place_by};
ghost use Rattle.evaluation.specs.internal.Comparing.{tree_of};

use crate::step::{Comparison, after_in, before_in};
use plan::{set_in, size_in};
use reading::element;

// The colour that an expression means, its set, and the place after it. This and the next two are structs of their own: one for any value would have no
// name for what is told.
#[derive(Clone, Copy, Debug, PartialEq, Eq)]
pub struct Value {
    pub colour: u16,
    pub set: u8,
    pub next: usize,
}

// Whether a guard holds, and the place after it.
#[derive(Clone, Copy, Debug, PartialEq, Eq)]
pub struct Tested {
    pub holds: bool,
    pub next: usize,
}

// A rank, and the place after an expression.
#[derive(Clone, Copy, Debug, PartialEq, Eq)]
pub struct Ranked {
    pub rank: usize,
    pub next: usize,
}

// A net file, its table, and each variable's colour.
#[derive(Clone, Copy)]
pub struct Bound<'a> {
    pub file: &'a [u8],
    pub plan: &'a [u32; 3584],
    pub env: &'a [u8; 32],
    ghost short: { length file.now < 2 ^ 63 },
}

impl Bound<'_> {
    // The colour expression at a place, with so many levels left.
    fn colour_at(&self, left: u8, at: usize) -> Value
        ensures is { (places : List Place) → Valued (scope_in self.now.plan.now places) self.now.env.now result
            (read_colour self.now.file.now (scope_in self.now.plan.now places) left at) }
        ensures small { result.colour ≤ 255 + left }
    {
        let Bound { file, plan, env } = *self;
        if file.len() <= at {
            return Value {
                colour: 0,
                set: 0,
                next: at,
            };
        }
        let b = file[at];
        if b == 0x30 {
            let v = element(file, at + 1, 0);
            return Value {
                colour: element(env, v as usize, 0) as u16,
                set: set_in(plan, v),
                next: at + 2,
            };
        }
        if b == 0x31 {
            return Value {
                colour: element(file, at + 2, 0) as u16,
                set: element(file, at + 1, 0),
                next: at + 3,
            };
        }
        if left < 1 {
            return Value {
                colour: 0,
                set: 0,
                next: at,
            };
        }
        let k = self.colour_at(left - 1, at + 1);
        let size = size_in(plan, k.set);
        Value {
            colour: if b == 0x32 {
                after_in(size, k.colour)
            } else {
                before_in(size, k.colour)
            },
            ..k
        }
    }

    // Two colours one after the other, compared. Two variables are compared at once.
    fn compared_at(&self, how: Comparison, left: u8, next: usize) -> Tested
        ensures { (places : List Place) (at : ℕ) → GuardHeld (scope_in self.now.plan.now places) self.now.env.now result
            (comparison (scope_in self.now.plan.now places)
            (read_colour self.now.file.now (scope_in self.now.plan.now places) left) (tree_of how) at next) }
    {
        let Bound { file, env, .. } = *self;
        if let Some([0x30, v, 0x30, w, ..]) = file.get(next..) {
            let x = element(env, *v as usize, 0);
            let y = element(env, *w as usize, 0);
            return Tested {
                holds: how.holds(x as u16, y as u16),
                next: next + 4,
            };
        }
        let a = self.colour_at(left, next);
        let b = self.colour_at(left, a.next);
        Tested {
            holds: how.holds(a.colour, b.colour),
            next: b.next,
        }
    }

    // Whether the guard at a place holds, with so many levels left.
    pub fn guard_at(&self, left: u8, at: usize) -> Tested
        ensures { (places : List Place) → GuardHeld (scope_in self.now.plan.now places) self.now.env.now result
            (read_guard self.now.file.now (scope_in self.now.plan.now places) left at) }
    {
        let file = self.file;
        if file.len() <= at {
            return Tested {
                holds: false,
                next: at,
            };
        }
        let b = file[at];
        if b == 0x20 {
            return Tested {
                holds: true,
                next: at + 1,
            };
        }
        if left < 1 {
            return Tested {
                holds: false,
                next: at,
            };
        }
        match b {
            0x21 => {
                let g = self.guard_at(left - 1, at + 1);
                Tested {
                    holds: !g.holds,
                    next: g.next,
                }
            }
            0x22 => {
                let g = self.guard_at(left - 1, at + 1);
                let h = self.guard_at(left - 1, g.next);
                Tested {
                    holds: g.holds & h.holds,
                    next: h.next,
                }
            }
            0x23 => {
                let g = self.guard_at(left - 1, at + 1);
                let h = self.guard_at(left - 1, g.next);
                Tested {
                    holds: g.holds | h.holds,
                    next: h.next,
                }
            }
            0x24 => self.compared_at(Comparison::Equal, left - 1, at + 1),
            0x25 => self.compared_at(Comparison::Less, left - 1, at + 1),
            _ => Tested {
                holds: false,
                next: at,
            },
        }
    }

    // The one rank that 0x40 gives its count, and the place after its colours: two where the place is a pair, the meaning's own test (place_by), else one.
    pub fn rank_at(&self, paired: bool, left: u8, next: usize) -> Ranked
        ensures { (places : List Place) (first second count at : ℕ) → Ranks (scope_in self.now.plan.now places) self.now.env.now count result
            (amount (scope_in self.now.plan.now places)
            (read_colour self.now.file.now (scope_in self.now.plan.now places) left) (place_by paired first second) count at next) }
    {
        let plan = self.plan;
        let a = self.colour_at(left, next);
        if paired {
            let b = self.colour_at(left, a.next);
            let size = size_in(plan, b.set);
            return Ranked {
                rank: (a.colour as usize) * (size as usize) + (b.colour as usize),
                next: b.next,
            };
        }
        Ranked {
            rank: a.colour as usize,
            next: a.next,
        }
    }
}
