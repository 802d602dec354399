// Gives the images of orders on a flat net, and the order of a row.
#![tactic(auto)]

mod image;

ghost use Rattle.std.specs.Prelude.{◌≡◌, ◌≤◌, ◌*◌, ◌/◌, length};
ghost use Rattle.reading.specs.Basics.{over};
ghost use Rattle.prepared.specs.internal.Drawn.{net_of};
ghost use Rattle.row_numbers.specs.Unfolding as meant;
ghost use Rattle.row_numbers.specs.Unfolding.{images_call, order_call};
ghost use Rattle.images.specs.Replies.{images_called, order_reply};

pub use bindings::Order;
use bindings::order_at;
use image::images_by;
use prepared::Drawing;
use reading::{Reason, Refusal, once_more, refused};
use row_numbers::{count_entries, seek_row};

// The images on any net, by the largest table. Kept apart (once_more).
#[inline(never)]
fn images_long(drawing: &Drawing, orders: &[u8], out: &mut [u8], again: bool)
    requires { length orders.now / 6 * 5 ≤ length out.old }
    ensures { out.new ≡ over (meant.images (net_of drawing.now) orders.now) out.old }
{
    if once_more(drawing.file(), again) {
        images_long(drawing, orders, out, false);
    } else {
        images_by::<65536>(drawing, orders, out);
    }
}

// Writes the image of each order of a list, 6 bytes each, on a net file, and tells how many. A refusal writes nothing.
pub fn images(net: &[u8], orders: &[u8], out: &mut [u8]) -> Result<usize, Refusal>
    ensures { images_called result out.new ≡ images_call net.now orders.now out.old }
{
    let mut plan = [0u32; 3584];
    let mut initial = [0u16; 0];
    let drawing = Drawing::read(net, &mut plan, &mut initial)?;
    if orders.len() % 6 != 0 {
        return refused(Reason::RaggedList, 0);
    }
    let count = orders.len() / 6;
    if out.len() < count * 5 {
        return refused(Reason::NoSpace, 0);
    }
    // By the smallest table that is enough.
    let entries = count_entries(&drawing);
    if entries <= 64 {
        images_by::<64>(&drawing, orders, out);
    } else if entries <= 1024 {
        images_by::<1024>(&drawing, orders, out);
    } else {
        images_long(&drawing, orders, out, true);
    }
    Ok(count)
}

// The order of a row of a net file's flat net, if there is such a row.
pub fn row_order(net: &[u8], row: u32) -> Result<Option<Order>, Refusal>
    ensures { order_reply result ≡ order_call net.now row }
{
    let mut plan = [0u32; 3584];
    let mut initial = [0u16; 0];
    let drawing = Drawing::read(net, &mut plan, &mut initial)?;
    // A match in the place of `map`, whose closure would need its own clauses.
    match seek_row(&drawing, row as usize) {
        Some(binding) => Ok(Some(order_at(&drawing.transition(binding.transition), binding.index))),
        None => Ok(None),
    }
}
