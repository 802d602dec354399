// The set part and the variable part: lists of bytes, a command each.
ghost use Rattle.std.specs.Prelude.{◌≡◌, List, [], ℕ, ◌≤◌, ◌<◌, length};
ghost use Rattle.reading.specs.Reading.{whole};
ghost use Rattle.net.specs.Net.{scope};
ghost use Rattle.net_parts.specs.Parts.{set_part, variable_part};
ghost use Rattle.net_parts.specs.internal.Steps.{list_part, list_step, ListRoom, sets_read, Few};

use crate::Part;
use reading::{Reason, Refusal, element, refused};
use std::ops::Range;

// The operand of the command at a place, after so many of at most a limit; none where it does not stand there.
fn operand_at(
    file: &[u8],
    command: u8,
    values: &Range<usize>,
    limit: usize,
    count: usize,
    at: usize,
) -> Result<Option<u8>, Refusal>
    requires { 0 < command }
    ensures is { (l : List ℕ) → length l ≡ count
        → list_part command values.now.start values.now.end limit file.now l at ≡ list_step l at result }
    ensures room { ListRoom limit (length file.now) count at result }
{
    if element(file, at, 0) != command {
        return Ok(None);
    }
    if file.len() < at + 2 {
        return refused(Reason::CutOff, file.len());
    }
    let value = file[at + 1];
    if !values.contains(&(value as usize)) {
        return refused(Reason::OutOfRange, at);
    }
    if limit <= count {
        return refused(Reason::Overfull, at);
    }
    Ok(Some(value))
}

// The operands of one command after another, a byte each, go into the front of a lent list.
fn read_list(
    file: &[u8],
    command: u8,
    values: Range<usize>,
    list: &mut [u8],
    start: usize,
) -> Result<Part, Refusal>
    requires { 0 < command }
    ensures few { Few (length list.old) result }
    ensures is { sets_read list.new result ≡ whole file.now (list_part command values.start values.end (length list.old) file.now) [] start }
{
    let mut count: usize = 0;
    let mut at = start;
    // A while: a step is done, more or a fault.
    while let Some(value) = operand_at(file, command, &values, list.len(), count, at)? {
        list[count] = value;
        count += 1;
        at += 2;
    }
    // A list comes to no total; that of places does.
    Ok(Part {
        count,
        total: 0,
        next: at,
    })
}

// The set part: the sizes go into the front of a lent list of 16.
pub fn read_sets(file: &[u8], sizes: &mut [u8; 16], start: usize) -> Result<Part, Refusal>
    ensures few { Few 16 result }
    ensures is { sets_read sizes.new result ≡ whole file.now (set_part file.now) [] start }
{
    read_list(file, 0x10, 1..65, sizes, start)
}

// The variable part: each variable's set goes into the front of a lent list of 32.
pub fn read_variables(
    file: &[u8],
    sets: &[u8],
    vars: &mut [u8; 32],
    start: usize,
) -> Result<Part, Refusal>
    ensures few { Few 32 result }
    ensures is { sets_read vars.new result ≡ whole file.now (variable_part file.now (scope sets.now [] [])) [] start }
{
    read_list(file, 0x11, 0..sets.len(), vars, start)
}
