// What the call from a row back to the drawing replies, as codes and numbers.
ghost use Rattle.std.specs.Prelude.{◌≡◌, ◌∷◌, Result};
ghost use Rattle.reading.specs.Basics.{[]};
ghost use Rattle.images.specs.Replies.{order_reply};
ghost use Rattle.codes.specs.Codes.{returned, row_order_code};

use crate::give::{give, give_refusal};
use bindings::Order;
use reading::Refusal;

// Code 1: the order of a row is written. Code 2: there is no such row.
pub fn give_row_order(
    reply: Result<Option<Order>, Refusal>,
    order: &mut [u8; 6],
    first: &mut usize,
    second: &mut usize,
) -> u8
    ensures { returned result (first.new ∷ second.new ∷ []) (order.new ∷ [])
        ≡ row_order_code order.old (order_reply reply) }
{
    match reply {
        Ok(Some(found)) => {
            *order = found.into();
            give(1, 0, 0, first, second)
        }
        Ok(None) => give(2, 0, 0, first, second),
        Err(refusal) => give_refusal(refusal, first, second),
    }
}
