// Packs the table of arcs, fixed memory of numbers where 0 is no arc, in place: of each row of 32 slots, one a place, only those that hold an arc, by rising place.
ghost use Rattle.std.specs.Prelude.{◌≡◌, ℕ, ◌≤◌, ◌<◌, ◌+◌, length, get_or, take, if◌then◌else◌};
ghost use Rattle.evaluation.specs.internal.Evaluated.{is_pair};
ghost use Rattle.net.specs.internal.ReaderEnums.{place_in};
ghost use Rattle.prepared.specs.internal.Packed.{shape_in, Packed, RowPacked, RowFits, SlotsFit, EntryPut};

use net::PlaceSets;
use net_file::Tables;

// 1 where a place has a second set.
fn pair_bit(sets: PlaceSets) -> u32
    ensures is { result ≡ (if is_pair (place_in sets) then 1 else 0) }
    ensures small { result ≤ 1 }
{
    match sets {
        PlaceSets::One { .. } => 0,
        PlaceSets::Two { .. } => 1,
    }
}

// What a place is like: where its flat places begin, how many ranks it has, and whether it is a pair.
pub fn shape_of(tables: &Tables, p: usize) -> u32
    requires { p < 32 }
    ensures is { result ≡ shape_in tables.now.kinds tables.now.starts p }
    ensures small { result < 134217728 }
{
    let start = tables.starts[p];
    let count = tables.starts[p + 1].saturating_sub(start) % 8192;
    ((start % 8192) as u32) * 16384 + (count as u32) * 2 + pair_bit(tables.kinds[p])
}

// Puts the entry of a place at `end`, if its slot holds an arc: where the next one goes.
fn pack_place(slot: u32, p: usize, arcs: &mut [u32; 3072], end: usize) -> usize
    requires { (slot < 134217728) × (p < 32) × (end < 3072) }
    ensures is { EntryPut slot p arcs.old end arcs.new result }
    ensures small { result ≤ end + 1 }
{
    if slot < 1 {
        return end;
    }
    arcs[end] = slot * 32 + p as u32;
    end + 1
}

// Packs the row of slots that begins at base, a 0 behind its last entry where there is room in the row.
fn pack_row(base: usize, places: usize, arcs: &mut [u32; 3072])
    requires { (places ≤ 32) × (base ≤ 3040) × RowFits arcs.old places base }
    ensures front { take base arcs.new ≡ take base arcs.old }
    ensures is { RowPacked 32 (λ p. p) arcs.old places base arcs.new }
    ensures back { (j : ℕ) → base + 32 ≤ j → get_or arcs.new j 0 ≡ get_or arcs.old j 0 }
{
    let mut end = base;
    for p in 0..places {
        end = pack_place(arcs[base + p], p, arcs, end);
    }
    if end < base + 32 {
        arcs[end] = 0;
    }
}

// Packs the rows of so many transitions, three each, where they stand.
pub fn pack_arcs(places: usize, transitions: usize, arcs: &mut [u32; 3072])
    requires { (places ≤ 32) × (transitions ≤ 32) × SlotsFit arcs.old places transitions }
    ensures { Packed 32 (λ p. p) arcs.old arcs.new places transitions }
{
    for row in 0..transitions * 3 {
        pack_row(row * 32, places, arcs);
    }
}
