// What the program writes, into a lent buffer.
ghost use Rattle.std.specs.Prelude.{◌≡◌};
ghost use Rattle.std.proofs.Math.ListN.{length};
ghost use Rattle.reading.specs.Basics.{over};
ghost use Rattle.row_numbers.specs.Unfolding.{program};

use crate::call::unfold;
use crate::text::write_line;

// The flat file of a net file, or the line of its refusal, over the front of `out`; it gives the number of bytes.
pub fn write_reply(net: &[u8], out: &mut [u8; 65536]) -> usize
    ensures { (result ≡ length (program net.now)) × (out.new ≡ over (program net.now) out.old) }
{
    match unfold(net, out) {
        Ok(length) => length,
        Err(refusal) => write_line(refusal, out),
    }
}
