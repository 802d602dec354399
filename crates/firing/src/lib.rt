// Fires one row that lies in a lent list of arcs, by the firing rule of specs/.
#![tactic(auto)]

mod kind;
mod replies;

ghost use Rattle.std.specs.Prelude.{◌≡◌, List, [], false, ℕ, ◌-◌, length, get_or};
ghost use Rattle.reading.specs.Basics.{any};
ghost use Rattle.firing.specs.Firing.{fire, fired};
ghost use Rattle.firing.specs.Arcs.{Rising, Proper, row, weights, weight_in};
ghost use Rattle.firing.specs.Replies.{answer_number};
ghost use Rattle.firing.specs.internal.RowLists.{EndsWithin, row_in, row_held, RowWithin};
ghost use Rattle.firing.specs.internal.Steps.{lacking, hindering, spilling, SmallCapacities, Sought, changed};

pub use kind::Kind;
use reading::{element, store};
pub use replies::{Answer, Searched};

// An arc of a row: a flat place, and the weight there.
#[derive(Clone, Copy, Debug, Default, PartialEq, Eq)]
pub struct Arc {
    pub place: u16,
    pub weight: u16,
}

impl Arc {
    // The count at its place, 0 past the end.
    fn count(self, m: &[u16]) -> u16
        ensures { result ≡ get_or m.now self.place 0 }
    {
        element(m, usize::from(self.place), 0)
    }

    // Whether it, a take, is above its count.
    fn lacks(self, m: &[u16]) -> bool
        ensures { result ≡ lacking m.now self }
    {
        self.count(m) < self.weight
    }

    // Whether it, a hinder, has a weight above 0 and not above its count.
    fn hinders(self, m: &[u16]) -> bool
        ensures { result ≡ hindering m.now self }
    {
        0 < self.weight && self.weight <= self.count(m)
    }

    // Whether it, a put, brings its count above 65,535, where so much is taken there before.
    fn spills(self, take: u16, m: &[u16]) -> bool
        ensures { (takes : List _) → take ≡ weight_in takes self.place → result ≡ spilling [] m.now takes self }
    {
        let left = self.count(m).saturating_sub(take);
        65535 < u32::from(left) + u32::from(self.weight)
    }
}

// Where a row's takes, puts and hinders end in a lent list; each kind starts where the one before it ends. No slices: they would keep the list lent
// while it is still filled, so what fills it says that the ends lie within it.
#[derive(Clone, Copy, Debug, PartialEq, Eq)]
pub struct Ends {
    pub takes: usize,
    pub puts: usize,
    pub hinders: usize,
}

// A row: its arcs by kind.
#[derive(Clone, Copy)]
pub struct RowArcs<'a> {
    pub takes: &'a [Arc],
    pub puts: &'a [Arc],
    pub hinders: &'a [Arc],
}

// The row whose kinds end there in a lent list. Built into its callers, as the functions of a row below: the slices of the row stay
// in registers where each row of a list is fired or tried.
#[inline]
pub fn row_arcs(arcs: &[Arc], ends: Ends) -> RowArcs
    requires { EndsWithin arcs.now ends.takes ends.puts ends.hinders }
    ensures { row_held result ≡ row_in arcs.now ends.takes ends.puts ends.hinders }
{
    RowArcs {
        takes: &arcs[..ends.takes],
        puts: &arcs[ends.takes..ends.puts],
        hinders: &arcs[ends.puts..ends.hinders],
    }
}

// The same where the ends may be out of turn or past the list: it is tested once, and then there is no row.
pub fn row_within(arcs: &[Arc], ends: Ends) -> Option<RowArcs>
    ensures { RowWithin arcs.now ends.takes ends.puts ends.hinders result }
{
    if ends.puts < ends.takes || ends.hinders < ends.puts || arcs.len() < ends.hinders {
        return None;
    }
    Some(row_arcs(arcs, ends))
}

// Whether some take is above its count.
pub fn some_lacks(takes: &[Arc], m: &[u16]) -> bool
    ensures { result ≡ any (lacking m.now) takes.now }
{
    takes.iter().any(|arc| arc.lacks(m))
}

// Whether some hinder has a weight above 0 and not above its count.
fn some_hinders(hinders: &[Arc], m: &[u16]) -> bool
    ensures { result ≡ any (hindering m.now) hinders.now }
{
    hinders.iter().any(|arc| arc.hinders(m))
}

// Rising arcs from the first on whose place is not below p.
fn seek(arcs: &[Arc], p: u16) -> &[Arc]
    ensures { Sought arcs.now p result.now }
{
    let start = arcs.iter().position(|arc| p <= arc.place);
    &arcs[start.unwrap_or(arcs.len())..]
}

// The weight at place p of arcs that rise from there.
fn weight_at(arcs: &[Arc], p: u16) -> u16
    ensures { (n : ℕ) → Rising n p arcs.now → result ≡ weight_in arcs.now p }
{
    match arcs {
        [arc, ..] if arc.place == p => arc.weight,
        _ => 0,
    }
}

// Whether some put brings its count above 65,535. The take at its place is looked for only where the count with the put does not fit.
// Takes and puts stand by rising place, so each take is passed once.
fn some_spills(takes: &[Arc], puts: &[Arc], m: &[u16]) -> bool
    ensures { (n : ℕ) → Rising n 0 takes.now → Rising n 0 puts.now → result ≡ any (spilling [] m.now takes.now) puts.now }
{
    let mut rest = takes;
    for put in puts {
        if !put.spills(0, m) {
            continue;
        }
        rest = seek(rest, put.place);
        if put.spills(weight_at(rest, put.place), m) {
            return true;
        }
    }
    false
}

// Changes the count at each arc's place by its weight, arc by arc.
fn change<F: Fn(u16, u16) -> u16>(arcs: &[Arc], f: F, m: &mut [u16])
    requires { F.IsAlwaysCallable f }
    ensures { (g : ℕ → ℕ → ℕ) → ((x y r : ℕ) → F.post f x y r → r ≡ g x y) → m.new ≡ changed g arcs.now m.old }
{
    for arc in arcs {
        let count = f(arc.count(m), arc.weight);
        store(m, usize::from(arc.place), count);
    }
}

// The answer to a row of which no take is lacking.
#[inline]
pub fn rest_answer(row: RowArcs, m: &[u16]) -> Answer
    ensures { Proper (length m.now) (row_held row.entry)
        → any (lacking m.now) row.entry.takes.now ≡ false
        → answer_number result ≡ (fire [] (weights (row_held row.entry)) m.now).answer }
{
    if some_hinders(row.hinders, m) {
        Answer::Hindered
    } else if some_spills(row.takes, row.puts, m) {
        Answer::Spilling
    } else {
        Answer::Fired
    }
}

// The answer of the firing rule to a row.
#[inline]
pub fn answer(row: RowArcs, m: &[u16]) -> Answer
    ensures { Proper (length m.now) (row_held row.entry)
        → answer_number result ≡ (fire [] (weights (row_held row.entry)) m.now).answer }
{
    if some_lacks(row.takes, m) {
        Answer::Lacking
    } else {
        rest_answer(row, m)
    }
}

// Moves the marking by a row's takes and puts where the row was answered `Fired`, under whatever capacities.
#[inline]
pub fn move_row(takes: &[Arc], puts: &[Arc], answer: Answer, m: &mut [u16])
    ensures { (caps : List ℕ) (hinders : List _) → SmallCapacities caps → Proper (length m.old) (row takes.now puts.now hinders)
        → answer_number answer ≡ (fire caps (weights (row takes.now puts.now hinders)) m.old).answer
        → fired (answer_number answer) m.new ≡ fire caps (weights (row takes.now puts.now hinders)) m.old }
{
    if answer == Answer::Fired {
        change(takes, |count, weight| count.saturating_sub(weight), m);
        change(puts, |count, weight| count.wrapping_add(weight), m);
    }
}

// Fires a row of which no take is lacking: its answer, and the marking after it.
#[inline]
pub fn fire_rest(row: RowArcs, m: &mut [u16]) -> Answer
    ensures { Proper (length m.old) (row_held row.entry)
        → any (lacking m.old) row.entry.takes.now ≡ false
        → fired (answer_number result) m.new ≡ fire [] (weights (row_held row.entry)) m.old }
{
    let answer = rest_answer(row, m);
    move_row(row.takes, row.puts, answer, m);
    answer
}

// Fires a row: its answer, and the marking after it.
#[inline]
pub fn fire_row(row: RowArcs, m: &mut [u16]) -> Answer
    ensures { Proper (length m.old) (row_held row.entry)
        → fired (answer_number result) m.new ≡ fire [] (weights (row_held row.entry)) m.old }
{
    if some_lacks(row.takes, m) {
        Answer::Lacking
    } else {
        fire_rest(row, m)
    }
}
