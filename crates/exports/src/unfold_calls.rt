// The calls from the drawing to the flat net and back.
ghost use Rattle.std.specs.Prelude.{◌≡◌, ◌∷◌};
ghost use Rattle.reading.specs.Basics.{[]};
ghost use Rattle.row_numbers.specs.Unfolding.{images_call, order_call, unfold_call};
ghost use Rattle.codes.specs.Codes.{returned, row_order_code, write_code};

use codes::{give_count, give_row_order};

// Unfolds a net file into a flat file. Code 1: its length.
#[unsafe(no_mangle)]
pub extern "C" fn kwz_unfold(
    net: &[u8],
    flat: &mut [u8],
    first: &mut usize,
    second: &mut usize,
) -> u8
    ensures { returned result (first.new ∷ second.new ∷ []) (flat.new ∷ [])
        ≡ write_code (unfold_call net.now flat.old) }
{
    give_count(unfolding::unfold(net, flat), first, second)
}

// Writes the images of a list of orders. Code 1: how many were answered.
#[unsafe(no_mangle)]
pub extern "C" fn kwz_images(
    net: &[u8],
    orders: &[u8],
    images: &mut [u8],
    first: &mut usize,
    second: &mut usize,
) -> u8
    ensures { returned result (first.new ∷ second.new ∷ []) (images.new ∷ [])
        ≡ write_code (images_call net.now orders.now images.old) }
{
    give_count(images::images(net, orders, images), first, second)
}

// The order of a row. Code 1: it is written. Code 2: there is no such row.
#[unsafe(no_mangle)]
pub extern "C" fn kwz_row_order(
    net: &[u8],
    row: u32,
    order: &mut [u8; 6],
    first: &mut usize,
    second: &mut usize,
) -> u8
    ensures { returned result (first.new ∷ second.new ∷ []) (order.new ∷ [])
        ≡ row_order_code order.old (order_call net.now row) }
{
    give_row_order(images::row_order(net, row), order, first, second)
}
