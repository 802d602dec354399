// How a file begins and ends: its first command, with the edition, and its last, with nothing after it.
ghost use Rattle.std.specs.Prelude.{◌≡◌, ◌+◌, length};
ghost use Rattle.reading.specs.Reading.{fine};
ghost use Rattle.reading.specs.Refusals.{answered};
ghost use Rattle.reading.specs.internal.Frame.{opened, closed, going, OpenRoom};

use crate::{Reason, Refusal, refused};

// The place behind a file's first command: its byte, and edition 1.
pub fn opens(file: &[u8], byte: u8) -> Result<usize, Refusal>
    ensures is { opened file.now byte (λ next. fine next next) ≡ going (λ next. fine next next) result }
    ensures room { OpenRoom (length file.now) result }
{
    if file.len() < 1 {
        return refused(Reason::CutOff, file.len());
    }
    if file[0] != byte {
        return refused(Reason::StrayByte, 0);
    }
    if file.len() < 2 {
        return refused(Reason::CutOff, file.len());
    }
    if file[1] != 1 {
        return refused(Reason::OutOfRange, 0);
    }
    Ok(2)
}

// A file closes at a place with its last command, a byte, and nothing after it.
pub fn closes(file: &[u8], at: usize, byte: u8) -> Result<(), Refusal>
    ensures { closed file.now byte (tt {0}) at ≡ answered (λ u. u) (λ u. at + 1) result }
{
    if file.len() <= at {
        return refused(Reason::CutOff, file.len());
    }
    if file[at] != byte {
        return refused(Reason::StrayByte, at);
    }
    if at + 1 < file.len() {
        return refused(Reason::Tail, at + 1);
    }
    Ok(())
}
