// The images of a list of orders, by the table of row numbers.
ghost use Rattle.std.specs.Prelude.{◌≡◌, ◌≤◌, ◌<◌, ◌+◌, ◌*◌, ◌/◌, length};
ghost use Rattle.reading.specs.Basics.{over, product};
ghost use Rattle.net.specs.Net.{sizes_of, transition_at};
ghost use Rattle.net_file.specs.Limits.{Limits};
ghost use Rattle.prepared.specs.internal.Drawn.{net_of};
ghost use Rattle.row_numbers.specs.Unfolding.{row_number, image, images};
ghost use Rattle.row_numbers.specs.internal.Walked.{order_at, entries, Starts};
ghost use Rattle.flat_file.specs.internal.Output.{Appended};

use bindings::{Numbered, every_binding_has_row, name_order};
use flat_file::put_bytes;
use prepared::Drawing;
use reading::element;
use row_numbers::number_all;

// The image that carries a row number.
fn write_image(row: u32, out: &mut [u8], at: usize) -> usize
    requires { at + 5 ≤ length out.old }
    ensures { Appended out.old out.new at result (image row) }
{
    let [first, second, third, fourth] = row.to_le_bytes();
    put_bytes(&[0x61, first, second, third, fourth], out, at)
}

// A net with the numbers of its rows: where each transition starts, and the table.
#[derive(Clone, Copy)]
struct RowTable<'a> {
    drawing: &'a Drawing<'a>,
    starts: &'a [usize; 32],
    numbers: &'a [u32],
    ghost told: { Starts (net_of drawing.now) drawing.now.plan starts.now numbers.now (length (net_of drawing.now).transitions) },
    ghost limits: { Limits (net_of drawing.now) },
}

impl RowTable<'_> {
    // The row number of a binding: where every binding of its transition has a row they follow each other from its start on, else they stand in the table from there on.
    fn row_at(&self, binding: Numbered) -> u32
        requires room { binding.transition < 32 }
        requires here { binding.transition < length (net_of self.now.drawing.now).transitions }
        requires inside { binding.index < product (sizes_of (net_of self.now.drawing.now) (transition_at (net_of self.now.drawing.now) binding.transition)) }
        ensures { result ≡ row_number (net_of self.now.drawing.now) (order_at (net_of self.now.drawing.now) binding.transition binding.index) }
    {
        let Numbered { transition, index } = binding;
        let starts = self.starts;
        let place = starts[transition].saturating_add(index);
        if every_binding_has_row(self.drawing.plan(), transition) {
            (place % 65536) as u32
        } else {
            element(self.numbers, place, 0)
        }
    }

    // The row number of an order, 4,294,967,295 where it has no row, as the format has it; env is lent for the colours of its binding.
    fn row_of(&self, order: &[u8], env: &mut [u8; 32]) -> u32
        requires { length order.now ≡ 6 }
        ensures { result ≡ row_number (net_of self.now.drawing.now) order.now }
    {
        match name_order(self.drawing, order, env) {
            Some(binding) => self.row_at(binding),
            None => u32::MAX,
        }
    }
}

// Writes the image of each order, by a table of so many entries for the row numbers.
pub fn images_by<const N: usize>(drawing: &Drawing, orders: &[u8], out: &mut [u8])
    requires few { N ≤ 65536 }
    requires enough { entries (net_of drawing.now) drawing.now.plan (length (net_of drawing.now).transitions) ≤ N }
    requires room { length orders.now / 6 * 5 ≤ length out.old }
    ensures { out.new ≡ over (images (net_of drawing.now) orders.now) out.old }
{
    let mut starts = [0usize; 32];
    let mut numbers = [0u32; N];
    number_all(drawing, &mut starts, &mut numbers);
    let table = RowTable {
        drawing,
        starts: &starts,
        numbers: &numbers,
    };
    let mut env = [0u8; 32];
    let mut next: usize = 0;
    for i in 0..orders.len() / 6 {
        let order = &orders[i * 6..i * 6 + 6];
        let row = table.row_of(order, &mut env);
        next = write_image(row, out, next);
    }
}
