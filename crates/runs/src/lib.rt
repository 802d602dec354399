// Keeps terms in a lent room by rising rank: stored, multiplied, and two runs of them joined to one. A term is an arc whose place is a rank.
// How many slots were filled is told as a number, with the promise that it is no more than there are: what else would say it, a slice, could not be joined
// in place. The operator and what every other rank has (p, q) go together through three functions, which each take them apart.
#![tactic(auto)]

ghost use Rattle.std.specs.Prelude.{◌≡◌, true, [], ◌∷◌, ℕ, ◌≤◌, ◌<◌, ◌+◌, ◌-◌, ◌*◌, length, get_or, take};
ghost use Rattle.std.specs.List.{prefix_len};
ghost use Rattle.reading.specs.Basics.{ltb};
ghost use Rattle.firing.specs.internal.RowLists.{arcs_in};
ghost use Rattle.arc_expressions.specs.declared.operator.Operator.TheVariants.{Plus};
ghost use Rattle.runs.specs.internal.Terms.{limit, term, Terms, joined, join_by, times_all, Laid, FirstCount, Apart};

use arc_expressions::Operator;
use firing::Arc;

// Two counts joined: their sum, 0 where it does not fit, or the first less the second, down to 0.
pub fn join(op: Operator, a: u16, b: u16) -> u16
    ensures { result ≡ join_by op a b }
{
    match op {
        Operator::Plus => a.checked_add(b).unwrap_or(0),
        Operator::Minus => a.saturating_sub(b),
    }
}

// A count times a factor, 0 where it does not fit.
pub fn scaled(factor: u16, count: u16) -> u16
    ensures { result ≡ limit (factor * count) }
{
    factor.checked_mul(count).unwrap_or(0)
}

// Stores a term in a room's first slot, and tells how many slots it takes. Where there is none it stores nothing.
pub fn store(room: &mut [Arc], term: Arc) -> usize
    ensures is { 0 < length room.old → Laid (term ∷ []) room.old room.new result }
    ensures within { result ≤ length room.old }
{
    match room.first_mut() {
        Some(slot) => {
            *slot = term;
            1
        }
        None => 0,
    }
}

// Every count of a run times a factor.
pub fn scale(run: &mut [Arc], factor: u16)
    ensures { run.new ≡ times_all factor run.old }
{
    for a in run {
        a.weight = scaled(factor, a.weight);
    }
}

// How many terms of a run come before a rank.
fn lower(run: &[Arc], rank: u16) -> usize
    ensures is { result ≡ prefix_len (λ a. ltb a.place rank) run.now }
    ensures within { result ≤ length run.now }
{
    run.iter().take_while(|a| a.place < rank).count()
}

// The count of a rank, where it is that of a run's first term.
fn count_of(run: &[Arc], rank: u16) -> Option<u16>
    ensures { FirstCount run.now rank result }
{
    match run {
        [a, ..] if a.place == rank => Some(a.weight),
        _ => None,
    }
}

// Joins the terms of the second run with the count p of every rank of the first, into a room: how many there are then.
fn merge_rest(op: Operator, p: u16, rest: &[Arc], room: &mut [Arc]) -> usize
    ensures is { length rest.now ≤ length room.old → Laid (joined (join_by op) p 0 [] rest.now) room.old room.new result }
    ensures within { result ≤ length room.old }
{
    let mut end = 0;
    for b in rest {
        let weight = join(op, p, b.weight);
        end += store(&mut room[end..], Arc { weight, ..*b });
    }
    end
}

// Whether two runs lie joined already: to their sum, where nothing else has a count, and the second comes after the first.
fn apart(op: Operator, first: &[Arc], second: &[Arc], p: u16, q: u16) -> bool
    ensures { result ≡ true → Apart op first.now second.now p q }
{
    if op != Operator::Plus || 0 < p || 0 < q {
        return false;
    }
    match (first.last(), second.first()) {
        (Some(a), Some(b)) => a.place < b.place,
        _ => true,
    }
}

// Where a rank belongs in a run: behind the terms whose ranks are not above it.
fn seat(run: &[Arc], rank: u16) -> usize
    ensures within { result ≤ length run.now }
    ensures before { 0 < result → (get_or run.now (result - 1) (term 0 0)).place ≤ rank }
    ensures after { (n : ℕ) → result ≤ n → n < length run.now → rank < (get_or run.now n (term 0 0)).place }
{
    let last = run.iter().rposition(|a| a.place <= rank);
    last.map_or(0, |i| i + 1)
}

// Adds a term to the run of so many at a room's front: how many there are then. Where no slot is left behind them it changes nothing.
pub fn insert(room: &mut [Arc], many: usize, added: Arc) -> usize
    ensures is { (below : ℕ) → Terms below 0 (take many room.old) → many < length room.old
        → Laid (joined (join_by Plus) 0 0 (take many room.old) (added ∷ [])) room.old room.new result }
    ensures within { many ≤ length room.old → result ≤ length room.old }
{
    if room.len() <= many {
        return many;
    }
    let i = seat(&room[..many], added.place);
    if 0 < i && room[i - 1].place == added.place {
        room[i - 1].weight = join(Operator::Plus, room[i - 1].weight, added.weight);
        return many;
    }
    room.copy_within(i..many, i + 1);
    room[i] = added;
    many + 1
}

// Joins two runs of terms, all of the first with what of the second stands between them, then the rest of the second, into a room.
fn merge_runs(
    op: Operator,
    first: &[Arc],
    second: &[Arc],
    room: &mut [Arc],
    p: u16,
    q: u16,
) -> usize
    ensures is { length first.now + length second.now ≤ length room.old → Laid (joined (join_by op) p q first.now second.now) room.old room.new result }
    ensures within { result ≤ length room.old }
{
    let mut rest = second;
    let mut end = 0;
    for a in first {
        let (before, behind) = rest.split_at(lower(rest, a.place));
        end += merge_rest(op, p, before, &mut room[end..]);
        let both = count_of(behind, a.place);
        rest = &behind[usize::from(both.is_some())..];
        let weight = join(op, a.weight, both.unwrap_or(q));
        end += store(&mut room[end..], Arc { weight, ..*a });
    }
    end + merge_rest(op, p, rest, &mut room[end..])
}

// Joins two runs behind them, and moves what comes out down to the front. Kept apart: runs that lie joined already do not come here.
#[inline(never)]
fn merge_behind(op: Operator, room: &mut [Arc], first: usize, both: usize, p: u16, q: u16) -> usize
    requires { (first ≤ both) × (both ≤ length room.old) }
    ensures is { both + both ≤ length room.old
        → Laid (joined (join_by op) p q (take first room.old) (arcs_in room.old first both)) room.old room.new result }
    ensures within { result ≤ length room.old }
{
    let (terms, behind) = room.split_at_mut(both);
    let (one, other) = terms.split_at(first);
    let many = merge_runs(op, one, other, behind, p, q);
    room.copy_within(both..both + many, 0);
    many
}

// Joins two runs of terms at a room's front, one of so many and one from there up to both, to one: how many it has. p and q are what every other
// rank has.
pub fn merge(op: Operator, room: &mut [Arc], first: usize, both: usize, p: u16, q: u16) -> usize
    requires { first ≤ both }
    ensures is { (below : ℕ) → Terms below 0 (take first room.old) → Terms below 0 (arcs_in room.old first both)
        → both + both ≤ length room.old
        → Laid (joined (join_by op) p q (take first room.old) (arcs_in room.old first both)) room.old room.new result }
    ensures within { both ≤ length room.old → result ≤ length room.old }
{
    if room.len() < both {
        return both;
    }
    let (one, other) = room[..both].split_at(first);
    if apart(op, one, other, p, q) {
        return both;
    }
    merge_behind(op, room, first, both, p, q)
}
