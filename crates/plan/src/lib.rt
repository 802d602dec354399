// The table of a prepared net: where each thing stands in it, and how it is read and written. It is fixed memory, one array
// of numbers that the project keeps at one length, and 0 in it says that there is no guard, arc or variable: only the functions here take it apart.
#![tactic(auto)]

mod entry;
mod own;
mod place;

ghost use Rattle.std.specs.Prelude.{◌≡◌, ◌≤◌, ◌<◌, ◌+◌, ◌*◌, map, get_or, take, drop, MatchOption};
ghost use Rattle.plan.specs.internal.Layout.{low, transitions_in, flat_places_in, sets_in, variables_in, own_in, OwnTold, guards_in, packed_in};
ghost use Rattle.plan.specs.internal.Entries.{EntryTold};

pub use entry::Entry;
pub use own::Own;
pub use place::place_list;

// How many transitions there are.
pub fn transitions_of(plan: &[u32; 3584]) -> usize
    ensures is { result ≡ transitions_in plan.now }
    ensures small { result ≤ 32 }
{
    (plan[4] as usize).min(32)
}

// How many flat places there are.
pub fn flat_places_of(plan: &[u32; 3584]) -> usize
    ensures is { result ≡ flat_places_in plan.now }
    ensures small { result ≤ 4096 }
{
    (plan[3] as usize).min(4096)
}

// The low byte of an entry of so many from a place on, 0 past the last.
fn low_in(plan: &[u32; 3584], from: usize, count: u32, i: u8) -> u8
    requires { from ≤ 24 }
    ensures { result ≡ get_or (map low (take count (drop from plan.now))) i 0 }
{
    if u32::from(i) < count {
        (plan[from + i as usize] % 256) as u8
    } else {
        0
    }
}

// The size of a set, 0 past the last.
#[tactic(auto, unfolding(crate::specs::internal::Layout::sets_in))]
pub fn size_in(plan: &[u32; 3584], set: u8) -> u8
    ensures { result ≡ get_or (sets_in plan.now) set 0 }
{
    low_in(plan, 8, plan[0], set)
}

// The set of a variable, 0 past the last.
#[tactic(auto, unfolding(crate::specs::internal::Layout::variables_in))]
pub fn set_in(plan: &[u32; 3584], v: u8) -> u8
    ensures { result ≡ get_or (variables_in plan.now) v 0 }
{
    low_in(plan, 24, plan[1], v)
}

// Where a transition's guard stands in the file, if it has one.
#[tactic(auto, using(crate::proofs::Sections::guard_at))]
pub fn guard_of(plan: &[u32; 3584], t: usize) -> Option<usize>
    requires { t < 32 }
    ensures { MatchOption result (get_or (guards_in plan.now) t 0 ≡ 0) (λ place. (0 < place) × (place ≡ get_or (guards_in plan.now) t 0)) }
{
    let place = plan[120 + t];
    (0 < place).then_some(place as usize)
}

// Slot k of a transition's own variables, as its number stands in the table.
#[tactic(auto, using(crate::proofs::Sections::own_at))]
pub fn slot_of(plan: &[u32; 3584], t: usize, k: usize) -> u32
    requires { (t < 32) × (k < 4) }
    ensures { result ≡ get_or (own_in plan.now) (t * 4 + k) 0 }
{
    plan[152 + (t * 4 + k)]
}

// What slot k of a transition's own variables holds, if it is used.
pub fn own_of(plan: &[u32; 3584], t: usize, k: usize) -> Option<Own>
    requires { (t < 32) × (k < 4) }
    ensures { OwnTold (get_or (own_in plan.now) (t * 4 + k) 0) result }
{
    let slot = slot_of(plan, t, k);
    let size = (slot % 256) as u8;
    if size < 1 {
        return None;
    }
    let variable = (slot / 256 % 32) as u8;
    Some(Own { variable, size })
}

// Entry i of the packed arcs, joined with what its place is like to the one number of which the table's meaning speaks; 0 where there is no arc.
#[tactic(auto, using(crate::proofs::Sections::arc_none, crate::proofs::Sections::arc_told))]
fn number_at(plan: &[u32; 3584], i: usize) -> u64
    requires { i < 3072 }
    ensures { result ≡ get_or (packed_in plan.now) i 0 }
{
    let arc = plan[512 + i];
    if arc < 1 {
        return 0;
    }
    u64::from(arc / 32) * 134217728 + u64::from(plan[56 + (arc % 32) as usize])
}

// Arc number i of the packed ones, if there is one.
pub fn arc_of(plan: &[u32; 3584], i: usize) -> Option<Entry>
    requires { i < 3072 }
    ensures { EntryTold (get_or (packed_in plan.now) i 0) result }
{
    let number = number_at(plan, i);
    if number < 1 {
        return None;
    }
    Some(Entry {
        expression: (number / 134217728) as usize,
        start: (number / 16384 % 8192) as usize,
        ranks: (number / 2 % 8192) as usize,
        paired: number % 2 == 1,
    })
}
