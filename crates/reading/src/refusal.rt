// Why a file or a call is refused, and where.
ghost use Rattle.std.specs.Prelude.{◌≡◌};
ghost use Rattle.reading.specs.Refusals.{number_of};

use std::fmt;

// The reasons, in the order of their numbers.
#[derive(Clone, Copy, Debug, PartialEq, Eq, Hash)]
pub enum Reason {
    Overlong = 1,
    CutOff,
    StrayByte,
    Overfull,
    OutOfRange,
    MixedColours,
    TooDeep,
    Overweight,
    Doubled,
    ManyVariables,
    WideBinding,
    WrongMarking,
    RaggedList,
    NoSpace,
    Tail,
}

impl Reason {
    // Its number, 1 to 15.
    pub fn number(self) -> u8
        ensures { result ≡ number_of self }
    {
        self as u8
    }
}

// A reason, and the place that the refusal tells.
#[derive(Clone, Copy, Debug, PartialEq, Eq, Hash)]
pub struct Refusal {
    pub reason: Reason,
    pub place: usize,
}

// As the program's line has it, without its end.
impl fmt::Display for Refusal {
    fn fmt<W: fmt::Write>(&self, f: &mut fmt::Formatter<W>) -> fmt::Result {
        write!(f, "refused {} at {}", self.reason.number(), self.place)
    }
}

// The refusal for a reason, at a place.
pub fn refused<T>(reason: Reason, place: usize) -> Result<T, Refusal>
    ensures { result ≡ Err (record { reason = reason; place = place }) }
{
    Err(Refusal { reason, place })
}
