// Writes the program's line for a refusal into a lent buffer.
ghost use Rattle.std.specs.Prelude.{◌≡◌, [], ◌∷◌, ◌+◌, ◌%◌, ◌≤◌, length};
ghost use Rattle.reading.specs.Basics.{over};
ghost use Rattle.reading.specs.Refusals.{number_of};
ghost use Rattle.row_numbers.specs.Unfolding.{decimal, line};
ghost use Rattle.flat_file.specs.internal.Output.{Appended};

use flat_file::{put_byte, put_bytes};
use reading::Refusal;

// The last digit of a number.
fn put_digit(n: usize, out: &mut [u8], at: usize) -> usize
    requires { at + 1 ≤ length out.old }
    ensures { Appended out.old out.new at result ((0x30 + n % 10) ∷ []) }
{
    put_byte(out, at, (0x30 + n % 10) as u8)
}

// A number in tens, of at most so many digits. A recursion, as its meaning is: a loop is no plainer, since the last digit comes first.
fn put_decimal(digits: usize, n: usize, out: &mut [u8], at: usize) -> usize
    requires { at + digits ≤ length out.old }
    ensures { Appended out.old out.new at result (decimal digits n) }
{
    if digits < 1 {
        return at;
    }
    if n < 10 {
        return put_digit(n, out, at);
    }
    let next = put_decimal(digits - 1, n / 10, out, at);
    put_digit(n, out, next)
}

// The line of a refusal; it gives the line's length.
// Not by `Display` of the refusal: the line's contract is its bytes, and no contract tells what `Display` writes.
pub(crate) fn write_line(refusal: Refusal, out: &mut [u8]) -> usize
    requires { 23 ≤ length out.old }
    ensures { let text = line (number_of refusal.reason) refusal.place in (result ≡ length text) × (out.new ≡ over text out.old) }
{
    let mut next = put_bytes(b"refused ", out, 0);
    next = put_decimal(5, usize::from(refusal.reason.number()), out, next);
    next = put_bytes(b" at ", out, next);
    next = put_decimal(5, refusal.place, out, next);
    put_byte(out, next, 0x0A)
}
