// The tokens part: the initial count of each flat place goes into a lent table.
ghost use Rattle.std.specs.Prelude.{◌≡◌, List, ℕ, ◌≤◌, ◌<◌, length, get_or, IfSome};
ghost use Rattle.net.specs.Net.{Net, Tokens};
ghost use Rattle.net_parts.specs.Parts.{tokens_part};
ghost use Rattle.net_parts.specs.internal.Tables.{StartsRise, Started, Holds, flag, flat_found, token_step, TokenRoom, TokensTold};

use net::after;
use reading::{Reason, Refusal, byte_at, refused, store, word_at};

// Where the flat places of each of so many places begin, and after the last their number.
#[derive(Clone, Copy)]
pub struct Starts<'a> {
    pub starts: &'a [usize],
    pub places: usize,
    pub total: usize,
    ghost rise: { StartsRise starts.now places total },
}

impl<'a> Starts<'a> {
    // The flat place of a rank of a place; none where the place or the rank is not there.
    fn flat_at(self, p: usize, rank: usize) -> Option<usize>
        requires { rank < 65536 }
        ensures is { result ≡ flat_found self.entry.starts.now self.entry.places p rank }
        ensures small { IfSome result (λ flat. flat < 4096) }
    {
        if self.places <= p {
            return None;
        }
        let flat = self.starts[p] + rank;
        (flat < self.starts[p + 1]).then_some(flat)
    }
}

// Tokens that were read: a place, a rank, their count, the flat place that they are, and the place after them in the file.
// Place and rank are as the file names them, and as the meaning lists tokens: the contract of token_at speaks of them. The flat place is where the
// count goes; only a search of the starts would give the two back from it.
#[derive(Clone, Copy)]
pub struct TokenRead {
    place: usize,
    rank: usize,
    count: u16,
    flat: usize,
    next: usize,
}

// The tokens command at a place; a flat place that has had its command is marked by 1. A mark is a number as a count is: what is said of one list is
// said of the other.
fn token_at(
    file: &[u8],
    starts: &Starts,
    named: &[u8; 4096],
    at: usize,
) -> Result<Option<TokenRead>, Refusal>
    ensures is { (n : Net) (tokens : List Tokens) → Started n n.places starts.now.starts.now starts.now.places starts.now.total
        → Holds n tokens flag starts.now.starts.now named.now → tokens_part file.now n tokens at ≡ token_step tokens result }
    ensures room { TokenRoom starts.now.starts.now named.now (length file.now) starts.now.places at result }
{
    if byte_at(file, at) != 0x19 {
        return Ok(None);
    }
    let next = after(file, at);
    if file.len() < next {
        return refused(Reason::CutOff, file.len());
    }
    let place = file[at + 1] as usize;
    let rank = word_at(file, at + 2);
    let Some(flat) = starts.flat_at(place, rank) else {
        return refused(Reason::OutOfRange, at);
    };
    if named[flat] != 0 {
        return refused(Reason::Doubled, at);
    }
    Ok(Some(TokenRead {
        place,
        rank,
        count: word_at(file, at + 4) as u16,
        flat,
        next,
    }))
}

// The tokens part, over counts and marks that are all 0: the place after it. Counts are stored as far as their list reaches.
fn read_marked(
    file: &[u8],
    starts: &Starts,
    initial: &mut [u16],
    named: &mut [u8; 4096],
    start: usize,
) -> Result<usize, Refusal>
    requires { (i : ℕ) → (get_or initial.old i 0 ≡ 0) × (get_or named.old i 0 ≡ 0) }
    ensures { (n : Net) → Started n n.places starts.now.starts.now starts.now.places starts.now.total
        → TokensTold file.now n start starts.now.starts.now initial.new result }
{
    let mut at = start;
    // A while: a step is done, more or a fault.
    while let Some(token) = token_at(file, starts, named, at)? {
        store(initial, token.flat, token.count);
        named[token.flat] = 1;
        at = token.next;
    }
    Ok(at)
}

// The tokens part: the place after it. Marks are made only where there are tokens.
pub fn read_tokens(
    file: &[u8],
    starts: &Starts,
    initial: &mut [u16],
    start: usize,
) -> Result<usize, Refusal>
    ensures { (n : Net) → Started n n.places starts.now.starts.now starts.now.places starts.now.total
        → TokensTold file.now n start starts.now.starts.now initial.new result }
{
    initial.fill(0);
    if byte_at(file, start) != 0x19 {
        return Ok(start);
    }
    let mut named = [0u8; 4096];
    read_marked(file, starts, initial, &mut named, start)
}
