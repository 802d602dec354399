// What a row is answered, and what a search for the first gives.
ghost use Rattle.std.specs.Prelude.{◌≡◌};
ghost use Rattle.firing.specs.Replies.{answer_number};

// What becomes of an order, in the order of the numbers.
#[derive(Clone, Copy, Debug, PartialEq, Eq)]
pub enum Answer {
    Fired = 0,
    NoBinding,
    NoRow,
    Lacking,
    Hindered,
    Spilling,
}

impl Answer {
    // Its number, 0 to 5.
    pub fn number(self) -> u8
        ensures { result ≡ answer_number self }
    {
        self as u8
    }
}

// As a caller of Rust expects it; the contracts in this repository speak of `number`.
impl From<Answer> for u8 {
    fn from(answer: Answer) -> u8
        ensures { result ≡ answer_number answer }
    {
        answer.number()
    }
}

// What a search found first, and how many it tried: one more than those before it, or all.
#[derive(Clone, Copy, Debug, PartialEq, Eq)]
pub struct Searched<T> {
    pub found: Option<T>,
    pub tried: usize,
}
