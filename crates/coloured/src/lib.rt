// The drawing's engine: fires lists of orders on a net file.
#![tactic(auto)]

mod engine;

ghost use Rattle.std.specs.Prelude.{◌≡◌};
ghost use Rattle.bindings.specs.Orders.{fire_orders};
ghost use Rattle.coloured.specs.Replies.{fire_called};

use engine::fire_on;
use prepared::Drawing;
use reading::Refusal;

// Fires a list of orders, 6 bytes each, on a net file and a marking, an answer each: how many were answered. A refusal changes neither list.
pub fn fire_orders(
    net: &[u8],
    marking: &mut [u16],
    orders: &[u8],
    answers: &mut [u8],
) -> Result<usize, Refusal>
    ensures { fire_called result marking.new answers.new
        ≡ fire_orders net.now marking.old orders.now answers.old }
{
    let mut plan = [0u32; 3584];
    let drawing = Drawing::read(net, &mut plan, &mut [])?;
    fire_on(&drawing, orders, marking, answers)
}
