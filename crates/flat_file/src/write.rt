// Writes the pieces of a flat file into a lent buffer, each at `at`, behind what is written already; each gives the next place.
// Each asks for the room of the bytes that it writes itself, so many for each: no one type can say that for all. They hand on the whole
// buffer and a place: a slice of what is left would be cut anew at each call, and each caller would add up the lengths, no plainer.
ghost use Rattle.std.specs.Prelude.{◌≡◌, [], ◌∷◌, ◌+◌, ◌*◌, ◌≤◌, length};
ghost use Rattle.reading.specs.Basics.{flat_map, word};
ghost use Rattle.firing.specs.internal.RowLists.{row_held};
ghost use Rattle.flat_file.specs.Flat.{arc_bytes, row_bytes};
ghost use Rattle.flat_file.specs.internal.Output.{Appended};

use firing::{Arc, RowArcs};

pub fn put_byte(out: &mut [u8], at: usize, b: u8) -> usize
    requires { at + 1 ≤ length out.old }
    ensures { Appended out.old out.new at result (b ∷ []) }
{
    out[at] = b;
    at + 1
}

// The bytes of a list.
pub fn put_bytes(bytes: &[u8], out: &mut [u8], at: usize) -> usize
    requires { at + length bytes.now ≤ length out.old }
    ensures { Appended out.old out.new at result bytes.now }
{
    let next = at + bytes.len();
    out[at..next].copy_from_slice(bytes);
    next
}

pub fn put_word(out: &mut [u8], at: usize, w: u16) -> usize
    requires { at + 2 ≤ length out.old }
    ensures { Appended out.old out.new at result (word w) }
{
    put_bytes(&w.to_le_bytes(), out, at)
}

// The opening of a flat file.
pub fn write_head(out: &mut [u8], at: usize) -> usize
    requires { at + 2 ≤ length out.old }
    ensures { Appended out.old out.new at result (0x02 ∷ 1 ∷ []) }
{
    put_bytes(&[0x02, 1], out, at)
}

fn write_place(count: u16, out: &mut [u8], at: usize) -> usize
    requires { at + 3 ≤ length out.old }
    ensures { Appended out.old out.new at result (0x50 ∷ word count) }
{
    let next = put_byte(out, at, 0x50);
    put_word(out, next, count)
}

// The places' counts.
pub fn write_places(counts: &[u16], out: &mut [u8], at: usize) -> usize
    requires { at + 3 * length counts.now ≤ length out.old }
    ensures { Appended out.old out.new at result (flat_map (λ c. 0x50 ∷ word c) counts.now) }
{
    let mut next = at;
    for count in counts {
        next = write_place(*count, out, next);
    }
    next
}

fn write_arc(byte: u8, a: Arc, out: &mut [u8], at: usize) -> usize
    requires { at + 5 ≤ length out.old }
    ensures { Appended out.old out.new at result (arc_bytes byte a) }
{
    let mut next = put_byte(out, at, byte);
    next = put_word(out, next, a.place);
    put_word(out, next, a.weight)
}

// The arcs of one kind, each behind the kind's byte.
fn write_arcs(byte: u8, arcs: &[Arc], out: &mut [u8], at: usize) -> usize
    requires { at + 5 * length arcs.now ≤ length out.old }
    ensures { Appended out.old out.new at result (flat_map (arc_bytes byte) arcs.now) }
{
    let mut next = at;
    for a in arcs {
        next = write_arc(byte, *a, out, next);
    }
    next
}

// A row.
pub fn write_row(arcs: RowArcs, out: &mut [u8], at: usize) -> usize
    requires { at + 1 + 5 * (length arcs.takes.now + length arcs.puts.now + length arcs.hinders.now) ≤ length out.old }
    ensures { Appended out.old out.new at result (row_bytes (row_held arcs.entry)) }
{
    let mut next = put_byte(out, at, 0x51);
    next = write_arcs(0x52, arcs.takes, out, next);
    next = write_arcs(0x53, arcs.puts, out, next);
    write_arcs(0x54, arcs.hinders, out, next)
}

// The close of a flat file.
pub fn write_end(out: &mut [u8], at: usize) -> usize
    requires { at + 1 ≤ length out.old }
    ensures { Appended out.old out.new at result (0x5F ∷ []) }
{
    put_byte(out, at, 0x5F)
}
