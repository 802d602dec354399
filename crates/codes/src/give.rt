// How a call gives its answer back.
ghost use Rattle.std.specs.Prelude.{◌≡◌, ◌∷◌, Result};
ghost use Rattle.reading.specs.Basics.{ℕ, List, []};
ghost use Rattle.reading.specs.Refusals.{number_of, replied};
ghost use Rattle.codes.specs.Codes.{returned, count_code};

use reading::Refusal;

// A code, and two numbers behind the lent ones. The codes are the C interface's numbers, and first and second its two places for them.
pub fn give(code: u8, one: usize, two: usize, first: &mut usize, second: &mut usize) -> u8
    ensures { (rest : List ℕ) (lent : List (List ℕ)) → returned result (first.new ∷ second.new ∷ rest) lent ≡ returned code (one ∷ two ∷ rest) lent }
{
    *first = one;
    *second = two;
    code
}

// Code 0: a refusal's number and its place.
pub fn give_refusal(refusal: Refusal, first: &mut usize, second: &mut usize) -> u8
    ensures { (rest : List ℕ) (lent : List (List ℕ)) → returned result (first.new ∷ second.new ∷ rest) lent
        ≡ returned 0 (number_of refusal.reason ∷ refusal.place ∷ rest) lent }
{
    give(
        0,
        refusal.reason.number() as usize,
        refusal.place,
        first,
        second,
    )
}

// Code 1: how many items were answered, or how many bytes written.
pub fn give_count(reply: Result<usize, Refusal>, first: &mut usize, second: &mut usize) -> u8
    ensures { (lent : List (List ℕ)) → returned result (first.new ∷ second.new ∷ []) lent ≡ count_code (replied (λ count. count) reply) lent }
{
    match reply {
        Ok(count) => give(1, count, 0, first, second),
        Err(refusal) => give_refusal(refusal, first, second),
    }
}
