// Reads bytes and little-endian numbers at a place of a file; how any file is read is said in specs/.
// Past the end a byte reads as 0, so none of these asks anything. Besides, what keeps a function apart from its caller.
#![tactic(auto)]

mod frame;
mod refusal;

ghost use Rattle.std.specs.Prelude.{◌≡◌, true, ◌<◌, ◌+◌, get_or, set};
ghost use Rattle.reading.specs.Basics.{byte_at, word_at, long_at};

pub use frame::{closes, opens};
pub use refusal::{Reason, Refusal, refused};

// An element of a list, or another value past its end.
pub fn element<T: Copy>(l: &[T], i: usize, other: T) -> T
    ensures { result ≡ get_or l.now i other }
{
    l.get(i).copied().unwrap_or(other)
}

// Stores an element; past the end it stores nothing.
pub fn store<T: Copy>(l: &mut [T], i: usize, value: T)
    ensures { l.new ≡ set l.old i value }
{
    if i < l.len() {
        l[i] = value;
    }
}

// The u8 at a place.
pub fn byte_at(file: &[u8], at: usize) -> usize
    ensures { (result ≡ byte_at file.now at) × (result < 256) }
{
    usize::from(element(file, at, 0))
}

// The u16 at a place.
pub fn word_at(file: &[u8], at: usize) -> usize
    ensures { (result ≡ word_at file.now at) × (result < 65536) }
{
    if at < file.len() {
        byte_at(file, at) + 256 * byte_at(file, at + 1)
    } else {
        0
    }
}

// The u32 at a place.
pub fn long_at(file: &[u8], at: usize) -> usize
    ensures { (result ≡ long_at file.now at) × (result < 4294967296) }
{
    if at < file.len() {
        word_at(file, at) + 65536 * word_at(file, at + 2)
    } else {
        0
    }
}

// Whether a function that may call itself once more does. It promises the same both times, so it does not matter when it does; where
// `again` is false it does not. A function that can call itself can be kept apart: its tables lie in no other function's frame. Today's compiler does so for
// `#[inline(never)]`, which stands in front of each of them and which it may take for a hint; this stays beside it.
pub fn once_more(file: &[u8], again: bool) -> bool
    ensures { result ≡ true → again ≡ true }
{
    again && file.is_empty()
}
