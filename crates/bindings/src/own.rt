// Bindings by each transition's own variables: how many, and the next one.
ghost use Rattle.std.specs.Prelude.{◌≡◌, List, ℕ, ◌≤◌, ◌<◌, ◌+◌, length};
ghost use Rattle.reading.specs.Basics.{product};
ghost use Rattle.net.specs.Net.{Net, sizes_of, transition_at};
ghost use Rattle.prepared.specs.internal.Prepared.{Prepared};
ghost use Rattle.bindings.specs.internal.Bindings.{its_sizes, BindsIts};
ghost use Rattle.bindings.specs.internal.SlotSteps.{colours_at, Turned, Skipped};

use plan::{Own, own_of};
use prepared::Transition;

// How many colours a slot's variable has; 1 for a slot that is not used.
pub fn colours_of(own: Option<Own>) -> usize
    ensures is { result ≡ colours_at own }
    ensures small { (1 ≤ result) × (result ≤ 255) }
{
    own.map_or(1, |own| own.size.into())
}

// How many bindings a transition has, by its net's table.
pub fn space_of(plan: &[u32; 3584], t: usize) -> usize
    requires { t < 32 }
    ensures is { (file : List ℕ) (n : Net) → Prepared file n plan.now → t < length n.transitions → result ≡ product (sizes_of n (transition_at n t)) }
    ensures small { result ≤ 4228250625 }
{
    let mut space: usize = 1;
    for k in 0..4 {
        space *= colours_of(own_of(plan, t, k));
    }
    space
}

// Gives a slot's variable its next colour, or its first after the last: whether the variable before it goes on too.
fn turn(own: Option<Own>, env: &mut [u8; 32]) -> bool
    ensures { Turned own env.old env.new result }
{
    let Some(own) = own else {
        return true;
    };
    let v = usize::from(own.variable);
    if env[v] < own.size - 1 {
        env[v] += 1;
        return false;
    }
    env[v] = 0;
    true
}

// Goes from a transition's binding to the next; the last variable changes fastest.
// It stays beside skip_bindings, since it has no division and is done at every binding. The colours are lent apart from their transition: each step changes
// them alone.
// Built into its callers: the search and the walks go through it at every binding.
#[inline]
pub fn next_binding(transition: &Transition, env: &mut [u8; 32])
    ensures { (i : ℕ) → i + 1 < product (its_sizes transition.now) → BindsIts transition.now i env.old → BindsIts transition.now (i + 1) env.new }
{
    for k in (0..4).rev() {
        if !turn(transition.own(k), env) {
            return;
        }
    }
}

// Moves a slot's variable on by so many colours, going round its set: how many times it went round. A slot that is not used hands them on.
fn skip(own: Option<Own>, many: u16, env: &mut [u8; 32]) -> u16
    ensures { Skipped own many env.old env.new result }
{
    let Some(own) = own else {
        return many;
    };
    let v = usize::from(own.variable);
    let size = u32::from(own.size);
    let colour = u32::from(env[v]) + u32::from(many);
    env[v] = (colour % size) as u8;
    (colour / size % 65536) as u16
}

// Goes from a transition's binding on by so many.
pub fn skip_bindings(transition: &Transition, many: u16, env: &mut [u8; 32])
    ensures { (i : ℕ) → i + many < product (its_sizes transition.now) → BindsIts transition.now i env.old → BindsIts transition.now (i + many) env.new }
{
    let mut rest = many;
    for k in (0..4).rev() {
        rest = skip(transition.own(k), rest, env);
        if rest < 1 {
            return;
        }
    }
}
