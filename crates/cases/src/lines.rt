// The lines that several calls write, and the calls that fire a list. A reply is a line of several values, so it is a function and no Display of one.
use reading::Refusal;
use std::io;
use std::io::{Read, Write};
use streams::{file_buffer, list_buffer, marking_buffer, read_bytes, read_counts, say_list};

// A line of a count behind its words, or of the refusal.
pub fn say_reply<W: Write>(
    to: &mut W,
    words: &str,
    reply: Result<usize, Refusal>,
) -> io::Result<()> {
    match reply {
        Ok(count) => writeln!(to, "{words}{count}"),
        Err(refusal) => writeln!(to, "{refusal}"),
    }
}

// A case that fires a list, of images or of orders. Here as in each case the buffers stand first: one that is made further down is cleared twice, where the
// function begins and where it stands.
pub fn fired_case<R: Read, W: Write, F>(from: &mut R, to: &mut W, fire: F) -> io::Result<()>
where
    F: FnOnce(&[u8], &mut [u16], &[u8], &mut [u8]) -> Result<usize, Refusal>,
    requires { F.IsAlwaysCallable fire }
{
    let mut file = file_buffer();
    let mut marking = marking_buffer();
    let mut list = list_buffer();
    let mut answers = list_buffer();
    let file = read_bytes(from, &mut file);
    let marking = read_counts(from, &mut marking);
    let list = read_bytes(from, &mut list);
    let answers = read_bytes(from, &mut answers);
    say_reply(to, "answered ", fire(file, marking, list, answers))?;
    say_list(to, "marking", marking)?;
    say_list(to, "answers", answers)
}
