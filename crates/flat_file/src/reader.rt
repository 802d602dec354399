// Reads flat files: the places, the rows, and a row's arcs.
ghost use Rattle.std.specs.Prelude.{◌≡◌, List, [], ℕ, ◌<◌, ◌≤◌, ◌+◌, length};
ghost use Rattle.reading.specs.Basics.{with, word_at, ltb};
ghost use Rattle.reading.specs.Reading.{fine, under, whole};
ghost use Rattle.firing.specs.Arcs.{Row, row, Proper};
ghost use Rattle.firing.specs.internal.RowLists.{EndsWithin, row_in};
ghost use Rattle.flat_file.specs.Flat.{place_part, arc_part, row_part};
ghost use Rattle.flat_file.specs.internal.ReaderEnums.{most_arcs, ArcHere, arc_there, key, Least, arc_step, ArcRoom, later_ends, arcs_at, ArcsPassed, ArcsStand, step_of, step_told, StepRoom, PlacesRead, RowsRead, Scanned};

use firing::{Arc, Ends, Kind};
use reading::{Reason, Refusal, closes, element, opens, refused, store};

// The u16 that stands whole at a place.
fn word_in(file: &[u8], at: usize) -> u16
    requires { at + 2 ≤ length file.now }
    ensures { result ≡ word_at file.now at }
{
    u16::from_le_bytes([file[at], file[at + 1]])
}

// The arc that stands whole at a place, behind its command byte.
fn arc_in(file: &[u8], at: usize) -> Arc
    requires { at + 5 ≤ length file.now }
    ensures { result ≡ arc_there file.now at }
{
    Arc {
        place: word_in(file, at + 1),
        weight: word_in(file, at + 3),
    }
}

// The kind of the arc whose command byte stands at a place of the file.
fn arc_here(file: &[u8], at: usize) -> Option<Kind>
    ensures { ArcHere file.now at result }
{
    match element(file, at, 0) {
        0x52 => Some(Kind::Take),
        0x53 => Some(Kind::Put),
        0x54 => Some(Kind::Hinder),
        _ => None,
    }
}

// An arc of a row.
#[derive(Clone, Copy)]
struct ArcRead {
    kind: Kind,
    arc: Arc,
}

// Its key: kinds in turn, and places in each.
fn key(kind: Kind, place: u16) -> usize
    ensures { result ≡ key kind place }
{
    kind as usize * 65536 + place as usize
}

// Where a file has no room for an arc from a place on: it is cut off if one begins there, else the row ends.
fn short_at(file: &[u8], at: usize) -> Result<Option<ArcRead>, Refusal>
    requires { length file.now < at + 5 }
    ensures is { (count : ℕ) (before : Row) → arc_part file.now count before at ≡ arc_step (at + 5) before result }
    ensures room { (count least : ℕ) → ArcRoom (length file.now) count at least result }
{
    match arc_here(file, at) {
        Some(_) => refused(Reason::CutOff, file.len()),
        None => Ok(None),
    }
}

// The arc at a place of the file, over so many flat places; None where the row ends. Whether an arc has room is asked first: of every arc but a file's last it is the one test of an index. The least key allowed is given.
fn arc_at(file: &[u8], count: usize, at: usize, least: usize) -> Result<Option<ArcRead>, Refusal>
    ensures is { (before : Row) → Least before least → arc_part file.now count before at ≡ arc_step (at + 5) before result }
    ensures room { ArcRoom (length file.now) count at least result }
{
    if file.len() < 5 || file.len() - 5 < at {
        return short_at(file, at);
    }
    let Some(kind) = arc_here(file, at) else {
        return Ok(None);
    };
    let arc = arc_in(file, at);
    if count <= arc.place as usize || arc.weight < 1 {
        return refused(Reason::OutOfRange, at);
    }
    if key(kind, arc.place) < least {
        return refused(Reason::Doubled, at);
    }
    Ok(Some(ArcRead { kind, arc }))
}

// The place behind the arcs from a place on, over so many flat places, which pass all their checks.
fn pass_arcs(file: &[u8], count: usize, at: usize) -> Result<usize, Refusal>
    requires { count ≤ 4096 }
    ensures { ArcsPassed file.now count at result }
{
    let mut least: usize = 0;
    let mut next = at;
    // A while: a step is done, more or a fault.
    while let Some(read) = arc_at(file, count, next, least)? {
        least = key(read.kind, read.arc.place) + 1;
        next += 5;
    }
    Ok(next)
}

// Where a row's kinds end, after one more arc of a kind: it stands before the ends of its own and of later kinds.
fn later_ends(kind: Kind, was: Ends) -> Ends
    requires { was.hinders + 1 < 65536 }
    ensures { result ≡ later_ends kind was }
{
    let end = was.hinders + 1;
    Ends {
        takes: if kind == Kind::Take { end } else { was.takes },
        puts: if kind == Kind::Hinder { was.puts } else { end },
        hinders: end,
    }
}

// Loads the arcs from a place on, which have passed all checks, into the front of a lent list.
pub fn load_arcs(file: &[u8], at: usize, arcs: &mut [Arc]) -> Ends
    requires arcs_stand { ArcsStand file.now at }
    requires file_in_bounds { most_arcs (length file.now) ≤ length arcs.old }
    ensures within { EndsWithin arcs.new result.takes result.puts result.hinders }
    ensures is { (n : ℕ) (row : Row) (next : ℕ) → n ≤ 4096 → arcs_at file.now n at ≡ fine row next
        → (row_in arcs.new result.takes result.puts result.hinders ≡ row) × Proper n row }
{
    let mut ends = Ends {
        takes: 0,
        puts: 0,
        hinders: 0,
    };
    let mut next = at;
    // A while: the arcs end where another byte stands.
    while let Some(kind) = arc_here(file, next) {
        arcs[ends.hinders] = arc_in(file, next);
        ends = later_ends(kind, ends);
        next += 5;
    }
    ends
}

// The place behind a command of a width that stands at a place, after so many of at most so many; None where another byte stands there. A count and its
// limit: whether there is room, handed in, would be worked out for each command ahead of its byte.
fn command_at(
    file: &[u8],
    at: usize,
    byte: u8,
    width: usize,
    count: usize,
    limit: usize,
) -> Result<Option<usize>, Refusal>
    requires byte_bound { 0 < byte }
    requires width_bound { (0 < width) × (width < 4) }
    ensures is { step_of file.now byte width (ltb count limit) at ≡ step_told (λ next. fine next next) result }
    ensures room { StepRoom (ltb count limit) width (length file.now) at result }
{
    if element(file, at, 0) != byte {
        return Ok(None);
    }
    if file.len() < at + width {
        return refused(Reason::CutOff, file.len());
    }
    if limit <= count {
        return refused(Reason::Overfull, at);
    }
    Ok(Some(at + width))
}

// The place behind the flat place at a place of the file, after so many.
fn place_at(file: &[u8], count: usize, at: usize) -> Result<Option<usize>, Refusal>
    ensures is { (initial : List ℕ) → length initial ≡ count → place_part file.now initial at
        ≡ step_told (fine (with initial (word_at file.now (at + 1)))) result }
    ensures room { StepRoom (ltb count 4096) 3 (length file.now) at result }
{
    command_at(file, at, 0x50, 3, count, 4096)
}

// What has been read of a file: so many flat places, or rows, up to a place.
#[derive(Clone, Copy)]
struct Part {
    count: usize,
    next: usize,
}

// The flat places. Their initial counts are not kept.
fn read_places(file: &[u8], start: usize) -> Result<Part, Refusal>
    requires { start ≤ length file.now }
    ensures { PlacesRead file.now start result }
{
    // Counted by hand: how many there are is known when the part ends.
    let mut count: usize = 0;
    let mut at = start;
    while let Some(next) = place_at(file, count, at)? {
        count += 1;
        at = next;
    }
    Ok(Part { count, next: at })
}

// The place behind the row command at a place of the file, after so many rows. Its arcs are not read here.
fn row_at(file: &[u8], rows: usize, at: usize) -> Result<Option<usize>, Refusal>
    ensures is { (places : ℕ) (before : List Row) → length before ≡ rows → row_part file.now places before at
        ≡ step_told (λ next. under (with before) (whole file.now (arc_part file.now places) (row [] [] []) next)) result }
    ensures room { StepRoom (ltb rows 65536) 1 (length file.now) at result }
{
    command_at(file, at, 0x51, 1, rows, 65536)
}

// The rows, over so many flat places: where each row's arcs start goes into the front of starts, as far as it reaches. Each
// start is a u32: at most 65,535 rows of at most 61,441 bytes each stand before it.
fn read_rows(file: &[u8], count: usize, start: usize, starts: &mut [u32]) -> Result<Part, Refusal>
    requires count_bound { count ≤ 4096 }
    requires start_bound { start ≤ 12290 }
    requires start_in_bounds { start ≤ length file.now }
    ensures { RowsRead file.now count start starts.new result }
{
    // Counted by hand: how many there are is known when the part ends.
    let mut rows: usize = 0;
    let mut at = start;
    while let Some(first) = row_at(file, rows, at)? {
        at = pass_arcs(file, count, first)?;
        store(starts, rows, first as u32);
        rows += 1;
    }
    Ok(Part {
        count: rows,
        next: at,
    })
}

// How many flat places and rows a flat file has.
#[derive(Clone, Copy)]
pub struct FlatSizes {
    pub places: usize,
    pub rows: usize,
}

// Reads a whole flat file: where each row's arcs start goes into the front of starts, as far as it reaches.
pub fn scan_file(file: &[u8], starts: &mut [u32]) -> Result<FlatSizes, Refusal>
    ensures { Scanned file.now starts.new result }
{
    let start = opens(file, 0x02)?;
    let places = read_places(file, start)?;
    let rows = read_rows(file, places.count, places.next, starts)?;
    closes(file, rows.next, 0x5F)?;
    Ok(FlatSizes {
        places: places.count,
        rows: rows.count,
    })
}
