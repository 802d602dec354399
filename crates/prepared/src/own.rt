// Each transition's own variables in a small table, four slots each.
// A slot is a number, 0 where it is not used: the table is fixed memory of numbers.
ghost use Rattle.std.specs.Prelude.{◌≡◌, ℕ, ◌≤◌, ◌<◌, length, get_or};
ghost use Rattle.net.specs.Net.{Net, in_transition, transition_at};
ghost use Rattle.net.specs.internal.ReaderEnums.{bits};
ghost use Rattle.net_file.specs.Limits.{Limits};
ghost use Rattle.net_transitions.specs.internal.TransitionTables.{no_head};
ghost use Rattle.prepared.specs.internal.TransitionVariables.{Owned, SlotsListed};

use net_transitions::{Head, has, size_of};
use reading::element;

// A transition's variables by a list of such bits, none past its end. No function here has such a list; it stands for callers outside that do.
pub fn uses_at(uses: &[u32], t: usize) -> u32
    ensures { result ≡ get_or uses.now t 0 }
{
    element(uses, t, 0)
}

// Lists the variables of a set of bits in four slots that are 0, by rising number; of more than 32 variables it tells nothing.
fn list_slots(uses: u32, sizes: &[u8], vars: &[u8], base: usize, own: &mut [u16; 128])
    requires { base ≤ 124 }
    ensures { length vars.now ≤ 32 → SlotsListed uses sizes.now vars.now base own.old own.new }
{
    // Counted by hand: only variables of the set take a slot.
    let mut k = 0;
    for v in 0..vars.len() {
        if k < 4 && has(uses, v) {
            own[base + k] = (v * 256 + size_of(sizes, vars, v)) as u16;
            k += 1;
        }
    }
}

// Each transition's own variables, four slots each, 0 in those that are not used.
pub fn list_variables(heads: &[Head], sizes: &[u8], vars: &[u8], transitions: usize) -> [u16; 128]
    requires { transitions ≤ 32 }
    ensures owned { (n : Net) → n.sets ≡ sizes.now → n.variables ≡ vars.now → Limits n → length n.transitions ≡ transitions
        → ((t : ℕ) → t < length n.transitions → (get_or heads.now t no_head).uses ≡ bits (λ v. in_transition v (transition_at n t)) 32)
        → Owned n result }
    ensures long { length result ≡ 128 }
{
    let mut own = [0; 128];
    for t in 0..transitions {
        let none = Head {
            uses: 0,
            guard: None,
        };
        list_slots(element(heads, t, none).uses, sizes, vars, t * 4, &mut own);
    }
    own
}
