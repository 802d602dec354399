// The transition part: each transition's variables and where its guard stands, and its row of arcs, go into lent tables.
ghost use Rattle.std.specs.Prelude.{◌≡◌, ◌≤◌, length};
ghost use Rattle.net_transitions.specs.internal.TransitionTables.{over, TransitionsTold};

use crate::ground::Ground;
use crate::transition::{Before, transition_at};
use net::{PlaceSets, Scope};
use net_parts::Part;
use reading::Refusal;

// What is told of a transition besides its arcs: its variables, and where its guard stands, if it has one.
#[derive(Clone, Copy)]
pub struct Head {
    pub uses: u32,
    pub guard: Option<u16>,
}

// The transition part, over a scope and places by their sets; its total is the binding space.
pub fn read_transitions(
    scope: &Scope,
    kinds: &[PlaceSets],
    heads: &mut [Head; 32],
    arcs: &mut [u32; 3072],
    start: usize,
) -> Result<Part, Refusal>
    requires file_len_bound { length scope.now.file.now ≤ 16384 }
    requires kinds_len_bound { length kinds.now ≤ 32 }
    ensures { TransitionsTold scope.now.file.now (over scope.now kinds.now) start heads.new arcs.new result }
{
    let ground = Ground {
        scope: *scope,
        kinds,
    };
    // Counted by hand: how many there are is known when the part ends.
    let mut before = Before { count: 0, space: 0 };
    let mut at = start;
    while let Some(t) = transition_at(&ground, before, arcs, at)? {
        heads[before.count] = Head {
            uses: t.uses,
            guard: t.guard,
        };
        before = Before {
            count: before.count + 1,
            space: t.space,
        };
        at = t.next;
    }
    Ok(Part {
        count: before.count,
        total: before.space,
        next: at,
    })
}
