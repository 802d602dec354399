// An input, read whole or not at all.
ghost use Rattle.unfold.specs.internal.Input.{IsRead, Within};

use std::io;
use std::io::Read;

// Reads until the input ends or `net` is full: how many bytes were read. Where a read fails nothing counts that came before it (for `cases`, in streams, it does).
pub fn read_input<R: Read>(from: &mut R, net: &mut [u8]) -> io::Result<usize>
    ensures within { Within result net.new }
    ensures bytes { IsRead (R.remaining from.old) (R.remaining from.new) result net.new }
{
    // No method of the library tells how many bytes came before the end.
    let mut done = 0;
    while done < net.len() {
        match from.read(&mut net[done..])? {
            0 => return Ok(done),
            more => done += more,
        }
    }
    Ok(done)
}
