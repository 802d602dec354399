// One step in a set's circle of colours, and two colours compared.
ghost use Rattle.std.specs.Prelude.{◌≡◌, ℕ, ◌≤◌, ◌<◌, ◌+◌};
ghost use Rattle.evaluation.specs.internal.Evaluated.{after, before};
ghost use Rattle.evaluation.specs.internal.Comparing.{test_of};

// The colour after c, going round a set of a size. By if, as its meaning is: a remainder would differ where the colour is past the set's end.
pub(crate) fn after_in(size: u8, c: u16) -> u16
    requires { c < 65535 }
    ensures is { result ≡ after size c }
    ensures small { result ≤ c + 1 }
{
    if c + 1 == size as u16 { 0 } else { c + 1 }
}

// The colour before c. By if, as its meaning is: the set may be empty, and c past its end.
pub(crate) fn before_in(size: u8, c: u16) -> u16
    ensures is { result ≡ before size c }
    ensures small { (most : ℕ) → 255 ≤ most → c ≤ most → result ≤ most }
{
    if c == 0 {
        (size as u16).saturating_sub(1)
    } else {
        c - 1
    }
}

// How a guard compares two colours.
#[derive(Clone, Copy, Debug, PartialEq, Eq)]
pub(crate) enum Comparison {
    Equal,
    Less,
}

impl Comparison {
    // Whether it holds of two colours.
    pub(crate) fn holds(self, x: u16, y: u16) -> bool
        ensures { result ≡ test_of self x y }
    {
        match self {
            Comparison::Equal => x == y,
            Comparison::Less => x < y,
        }
    }
}
