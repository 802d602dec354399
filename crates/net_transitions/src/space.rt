// Counts a transition's variables and its bindings, from the bits of its variables.
ghost use Rattle.std.specs.Prelude.{◌≡◌, map, Bool, ℕ, ◌≤◌, ◌<◌, ◌^◌, ◌/◌, ◌%◌, length, get_or, eqb, count_by};
ghost use Rattle.std.specs.List.{range_with_len};
ghost use Rattle.reading.specs.Basics.{keep, below, product};
ghost use Rattle.net.specs.Net.{Net, size_of};
ghost use Rattle.net.specs.internal.ReaderEnums.{bits, size_in};

use net::Scope;
use reading::element;

// Whether a variable is in a set.
pub fn has(uses: u32, v: usize) -> bool
    ensures { result ≡ eqb (uses / 2 ^ v % 2) 1 }
{
    v < 32 && (uses >> v) & 1 == 1
}

// How many of so many variables are in a set.
pub fn count_of(uses: u32, variables: usize) -> usize
    ensures { result ≡ count_by (λ v. eqb (uses / 2 ^ v % 2) 1) (range_with_len 0 variables) }
{
    (0..variables).filter(|v| has(uses, *v)).count()
}

// The size of a variable's set, from the sizes of all sets and the set of each variable.
pub fn size_of(sizes: &[u8], vars: &[u8], v: usize) -> usize
    ensures is { result ≡ size_in sizes.now vars.now v }
    ensures small { result ≤ 255 }
{
    let set = element(vars, v, 0);
    usize::from(element(sizes, usize::from(set), 0))
}

// How many bindings the variables of a set have: the product of the sizes of their sets. More than 65,536 where the set has more than 4.
pub fn bindings_of(uses: u32, scope: &Scope) -> usize
    ensures few { (n : Net) (stands : ℕ → Bool) → n.sets ≡ scope.now.sizes.now → n.variables ≡ scope.now.vars.now → length n.variables ≤ 32 → uses ≡ bits stands 32
        → length (keep stands (below (length n.variables))) ≤ 4
        → result ≡ product (map (λ v. size_of n (get_or n.variables v 0)) (keep stands (below (length n.variables)))) }
    ensures many { (stands : ℕ → Bool) → length scope.now.vars.now ≤ 32 → uses ≡ bits stands 32
        → 4 < length (keep stands (below (length scope.now.vars.now))) → 65536 < result }
    ensures small { result ≤ 4228250625 }
{
    if 4 < count_of(uses, scope.vars.len()) {
        return 65537;
    }
    let mut total = 1;
    for v in 0..scope.vars.len() {
        if has(uses, v) {
            total *= size_of(scope.sizes, scope.vars, v);
        }
    }
    total
}
