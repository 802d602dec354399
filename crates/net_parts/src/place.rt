// The place part: each place's sets and its first flat place go into lent tables.
ghost use Rattle.std.specs.Prelude.{◌≡◌, List, [], map, ℕ, ◌≤◌, length, IfSome};
ghost use Rattle.reading.specs.Basics.{sum};
ghost use Rattle.reading.specs.Reading.{whole};
ghost use Rattle.net.specs.Net.{Place, colours_of, scope};
ghost use Rattle.net_parts.specs.Parts.{place_part};
ghost use Rattle.net_parts.specs.internal.Steps.{place_step, sets_named, colours_counted};
ghost use Rattle.net_parts.specs.internal.Tables.{PlaceRoom, places_read, PlacesHeld};

use crate::Part;
use net::{PlaceSets, after};
use reading::{Reason, Refusal, element, refused};

// A place that was read: its sets, the colours of all places with it, and the place after it in the file.
#[derive(Clone, Copy)]
pub struct PlaceRead {
    sets: PlaceSets,
    total: usize,
    next: usize,
}

// The sets that the place command at a place names; none where no such command stands.
fn sets_named(file: &[u8], at: usize) -> Option<PlaceSets>
    ensures { result ≡ sets_named file.now at }
{
    match element(file, at, 0) {
        0x12 => Some(PlaceSets::One {
            set: element(file, at + 1, 0),
        }),
        0x13 => Some(PlaceSets::Two {
            first: element(file, at + 1, 0),
            second: element(file, at + 2, 0),
        }),
        _ => None,
    }
}

// How many colours a place of these sets has; none where one of them is not there.
fn colours_counted(sets: &[u8], place: PlaceSets) -> Option<usize>
    ensures is { result ≡ colours_counted sets.now place }
    ensures small { IfSome result (λ k. k ≤ 65025) }
{
    match place {
        PlaceSets::One { set } => {
            let size = *sets.get(set as usize)?;
            Some(size as usize)
        }
        PlaceSets::Two { first, second } => {
            let size = *sets.get(first as usize)?;
            let other = *sets.get(second as usize)?;
            Some(size as usize * other as usize)
        }
    }
}

// The place command at a place, after so many places with so many colours together; none where it does not stand there.
fn place_at(
    file: &[u8],
    sets: &[u8],
    count: usize,
    total: usize,
    at: usize,
) -> Result<Option<PlaceRead>, Refusal>
    requires { total ≤ 4096 }
    ensures is { (variables : List ℕ) (places : List Place) → length places ≡ count
        → sum (map (colours_of (scope sets.now variables [])) places) ≡ total
        → place_part file.now (scope sets.now variables []) places at ≡ place_step places result }
    ensures room { PlaceRoom sets.now (length file.now) count total at result }
{
    let Some(place) = sets_named(file, at) else {
        return Ok(None);
    };
    let next = after(file, at);
    if file.len() < next {
        return refused(Reason::CutOff, file.len());
    }
    let Some(colours) = colours_counted(sets, place) else {
        return refused(Reason::OutOfRange, at);
    };
    let total = total + colours;
    if 32 <= count || 4096 < total {
        return refused(Reason::Overfull, at);
    }
    Ok(Some(PlaceRead {
        sets: place,
        total,
        next,
    }))
}

// The place part, over so many sets; its total is the colours of all places together. Two tables: of starts there is one more, and tokens are read by them alone.
pub fn read_places(
    file: &[u8],
    sets: &[u8],
    kinds: &mut [PlaceSets; 32],
    starts: &mut [usize; 33],
    start: usize,
) -> Result<Part, Refusal>
    ensures is { (variables : List ℕ) → places_read kinds.new result
        ≡ whole file.now (place_part file.now (scope sets.now variables [])) [] start }
    ensures held { PlacesHeld sets.now kinds.new starts.new result }
    ensures long { length kinds.new ≡ 32 }
{
    let mut count: usize = 0;
    let mut total: usize = 0;
    let mut at = start;
    starts[0] = 0;
    // A while: a step is done, more or a fault.
    while let Some(place) = place_at(file, sets, count, total, at)? {
        kinds[count] = place.sets;
        count += 1;
        total = place.total;
        starts[count] = total;
        at = place.next;
    }
    Ok(Part {
        count,
        total,
        next: at,
    })
}
