// The calls on net files: sizes, and firing on the drawing.
ghost use Rattle.std.specs.Prelude.{◌≡◌, ◌∷◌};
ghost use Rattle.reading.specs.Basics.{[]};
ghost use Rattle.net_reader.specs.Sizes.{net_sizes};
ghost use Rattle.bindings.specs.Orders.{fire_orders, first_order};
ghost use Rattle.codes.specs.Codes.{returned, fire_code, first_order_code, net_code};

use codes::{give_count, give_first_order, give_net_sizes};

// Reads a net file. Code 1: how many flat places, transitions and bindings it has.
#[unsafe(no_mangle)]
pub extern "C" fn kwz_net_sizes(
    net: &[u8],
    first: &mut usize,
    second: &mut usize,
    third: &mut usize,
) -> u8
    ensures { returned result (first.new ∷ second.new ∷ third.new ∷ []) [] ≡ net_code (net_sizes net.now) }
{
    give_net_sizes(net_reader::net_sizes(net), first, second, third)
}

// Fires a list of orders on the drawing. Code 1: how many were answered.
#[unsafe(no_mangle)]
pub extern "C" fn kwz_fire_orders(
    net: &[u8],
    marking: &mut [u16],
    orders: &[u8],
    answers: &mut [u8],
    first: &mut usize,
    second: &mut usize,
) -> u8
    ensures { returned result (first.new ∷ second.new ∷ []) (marking.new ∷ answers.new ∷ [])
        ≡ fire_code (fire_orders net.now marking.old orders.now answers.old) }
{
    give_count(
        coloured::fire_orders(net, marking, orders, answers),
        first,
        second,
    )
}

// The first order that would fire. Code 1: the order, and how many were tried. Code 2: none, and how many were tried.
#[unsafe(no_mangle)]
pub extern "C" fn kwz_first_order(
    net: &[u8],
    marking: &[u16],
    order: &mut [u8; 6],
    first: &mut usize,
    second: &mut usize,
) -> u8
    ensures { returned result (first.new ∷ second.new ∷ []) (order.new ∷ [])
        ≡ first_order_code order.old (first_order net.now marking.now) }
{
    give_first_order(search::first_order(net, marking), order, first, second)
}
