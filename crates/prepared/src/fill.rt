// Reads a net file and fills the one table of its net. That there are at most 32 places or transitions is asked of each function here: of a net that was
// read `read_net` tells it, and what they take is numbers alone.
ghost use Rattle.std.specs.Prelude.{◌≡◌, [], ◌∷◌, map, ◌≤◌, ◌<◌, length, take};
ghost use Rattle.reading.specs.Basics.{below};
ghost use Rattle.plan.specs.internal.Layout.{Placed};
ghost use Rattle.prepared.specs.internal.Packed.{shape_in};
ghost use Rattle.prepared.specs.internal.Filled.{HeadsPlaced, ListsPlaced, PackedTold, PreparedTold};

use crate::own::list_variables;
use crate::pack::{pack_arcs, shape_of};
use net_file::{Counts, Tables, read_net};
use net_transitions::Head;
use plan::place_list;
use reading::Refusal;

// The counts, and the edition.
fn place_counts(counts: &Counts, plan: &mut [u32; 3584])
    requires { (counts.now.sets < 4294967296) × (counts.now.variables < 4294967296) × (counts.now.places < 4294967296) × (counts.now.total < 4294967296) × (counts.now.transitions < 4294967296) × (counts.now.space < 4294967296) }
    ensures { Placed 0 (counts.now.sets ∷ counts.now.variables ∷ counts.now.places ∷ counts.now.total ∷ counts.now.transitions ∷ counts.now.space ∷ 1 ∷ []) plan.old plan.new }
{
    let list = [
        counts.sets as u32,
        counts.variables as u32,
        counts.places as u32,
        counts.total as u32,
        counts.transitions as u32,
        counts.space as u32,
        1,
    ];
    place_list(&list, 0, plan);
}

// Of each transition its variables, as bits, and where its guard stands.
fn place_heads(heads: &[Head; 32], plan: &mut [u32; 3584])
    ensures { HeadsPlaced heads.now plan.old plan.new }
{
    for (t, head) in heads.iter().enumerate() {
        plan[88 + t] = head.uses;
        // The table is fixed memory of numbers: 0 where there is no guard.
        plan[120 + t] = u32::from(head.guard.unwrap_or(0));
    }
}

// Sets and variables, and of each transition its variables, as bits and one by one, and where its guard stands.
fn place_lists(tables: &Tables, counts: &Counts, plan: &mut [u32; 3584])
    requires { (counts.now.sets ≤ 16) × (counts.now.variables ≤ 32) × (counts.now.transitions ≤ 32) }
    ensures placed { ListsPlaced (take counts.now.sets tables.now.sizes) (take counts.now.variables tables.now.vars) tables.now.heads counts.now.transitions plan.old plan.new }
    ensures long { (length tables.now.sizes ≡ 16) × (length tables.now.vars ≡ 32) }
{
    let sizes = &tables.sizes[..counts.sets];
    let vars = &tables.vars[..counts.variables];
    let own = list_variables(&tables.heads, sizes, vars, counts.transitions);
    place_list(sizes, 8, plan);
    place_list(vars, 24, plan);
    place_heads(&tables.heads, plan);
    place_list(&own, 152, plan);
}

// What each place is like.
fn place_shapes(tables: &Tables, places: usize, plan: &mut [u32; 3584])
    requires { places ≤ 32 }
    ensures { Placed 56 (map (shape_in tables.now.kinds tables.now.starts) (below places)) plan.old plan.new }
{
    for p in 0..places {
        plan[56 + p] = shape_of(tables, p);
    }
}

// Reads a net file into tables, and its arcs into a part of its table, where they are packed then.
// The part comes as a slice: lent as an array at once, it would not be known what the whole table ends as.
fn read_packed(
    net: &[u8],
    tables: &mut Tables,
    part: &mut [u32],
    initial: &mut [u16],
) -> Result<Counts, Refusal>
    requires { length part.old ≡ 3072 }
    ensures { PackedTold net.now tables.new part.new initial.new result }
{
    let Some(arcs) = part.as_mut_array() else {
        unreachable!()
    };
    let counts = read_net(net, tables, arcs, initial)?;
    pack_arcs(counts.places, counts.transitions, arcs);
    Ok(counts)
}

// Reads a net file into its table, and its initial counts into a list, as far as it reaches. The table is the caller's again then, and `Drawing::of` takes it with its file.
pub fn prepare(net: &[u8], plan: &mut [u32; 3584], initial: &mut [u16]) -> Result<(), Refusal>
    ensures { PreparedTold net.now plan.new initial.new result }
{
    let mut tables = Tables::new();
    let counts = read_packed(net, &mut tables, &mut plan[512..], initial)?;
    place_lists(&tables, &counts, plan);
    place_shapes(&tables, counts.places, plan);
    place_counts(&counts, plan);
    Ok(())
}
