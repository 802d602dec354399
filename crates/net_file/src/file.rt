// The whole net file, part after part, into lent tables.
ghost use Rattle.std.specs.Prelude.{◌≡◌};
ghost use Rattle.net_file.specs.internal.NetTables.{no_tables, NetTold};

use net::{PlaceSets, Scope};
use net_parts::{Starts, read_places, read_sets, read_tokens, read_variables};
use net_transitions::{Head, read_transitions};
use reading::{Reason, Refusal, closes, opens, refused};

// The tables of a net: each set's size, each variable's set, each place's sets and first flat place, and what each transition begins with.
// Its arcs and its counts of tokens are lent apart: a caller has them where they stay.
#[derive(Clone, Copy)]
pub struct Tables {
    pub sizes: [u8; 16],
    pub vars: [u8; 32],
    pub kinds: [PlaceSets; 32],
    pub starts: [usize; 33],
    pub heads: [Head; 32],
}

impl Tables {
    // Tables that hold nothing yet.
    pub fn new() -> Tables
        ensures { result ≡ no_tables }
    {
        Tables {
            sizes: [0; 16],
            vars: [0; 32],
            kinds: [PlaceSets::One { set: 0 }; 32],
            starts: [0; 33],
            heads: [Head {
                uses: 0,
                guard: None,
            }; 32],
        }
    }
}

// How much a net that was read has of everything: its flat places as the total, and its binding space.
// It stands beside the tables, which are fixed memory: no heap, so no list of a table's own length.
#[derive(Clone, Copy, Debug, PartialEq, Eq)]
pub struct Counts {
    pub sets: usize,
    pub variables: usize,
    pub places: usize,
    pub total: usize,
    pub transitions: usize,
    pub space: usize,
}

// The whole net file: what it holds goes into the lent tables.
pub fn read_net(
    file: &[u8],
    tables: &mut Tables,
    arcs: &mut [u32; 3072],
    initial: &mut [u16],
) -> Result<Counts, Refusal>
    ensures { NetTold file.now tables.new arcs.new initial.new result }
{
    if 16384 < file.len() {
        return refused(Reason::Overlong, 16384);
    }
    let next = opens(file, 0x01)?;
    let sets = read_sets(file, &mut tables.sizes, next)?;
    let variables = read_variables(
        file,
        &tables.sizes[..sets.count],
        &mut tables.vars,
        sets.next,
    )?;
    let places = read_places(
        file,
        &tables.sizes[..sets.count],
        &mut tables.kinds,
        &mut tables.starts,
        variables.next,
    )?;
    let scope = Scope {
        file,
        sizes: &tables.sizes[..sets.count],
        vars: &tables.vars[..variables.count],
    };
    let kinds = &tables.kinds[..places.count];
    let transitions = read_transitions(&scope, kinds, &mut tables.heads, arcs, places.next)?;
    let starts = Starts {
        starts: &tables.starts,
        places: places.count,
        total: places.total,
    };
    let next = read_tokens(file, &starts, initial, transitions.next)?;
    closes(file, next, 0x1F)?;
    Ok(Counts {
        sets: sets.count,
        variables: variables.count,
        places: places.count,
        total: places.total,
        transitions: transitions.count,
        space: transitions.total,
    })
}
