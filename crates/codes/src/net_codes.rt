// What the calls on net files reply, as codes and numbers: sizes, and the first order on the drawing.
ghost use Rattle.std.specs.Prelude.{◌≡◌, ◌∷◌, Result};
ghost use Rattle.reading.specs.Basics.{[]};
ghost use Rattle.net_reader.specs.Replies.{net_reply};
ghost use Rattle.search.specs.Replies.{first_reply};
ghost use Rattle.codes.specs.Codes.{returned, first_order_code, net_code};

use crate::give::{give, give_refusal};
use bindings::Order;
use firing::Searched;
use net_reader::NetSizes;
use reading::Refusal;

// Code 1: how many flat places, transitions and bindings a net file has.
pub fn give_net_sizes(
    reply: Result<NetSizes, Refusal>,
    first: &mut usize,
    second: &mut usize,
    third: &mut usize,
) -> u8
    ensures { returned result (first.new ∷ second.new ∷ third.new ∷ []) [] ≡ net_code (net_reply reply) }
{
    match reply {
        Ok(sizes) => {
            *third = sizes.bindings;
            give(1, sizes.places, sizes.transitions, first, second)
        }
        Err(refusal) => {
            *third = 0;
            give_refusal(refusal, first, second)
        }
    }
}

// Code 1: the order, and how many were tried. Code 2: none, and how many were tried.
pub fn give_first_order(
    reply: Result<Searched<Order>, Refusal>,
    order: &mut [u8; 6],
    first: &mut usize,
    second: &mut usize,
) -> u8
    ensures { returned result (first.new ∷ second.new ∷ []) (order.new ∷ [])
        ≡ first_order_code order.old (first_reply reply) }
{
    match reply {
        Ok(searched) => match searched.found {
            Some(found) => {
                *order = found.into();
                give(1, searched.tried, 0, first, second)
            }
            None => give(2, searched.tried, 0, first, second),
        },
        Err(refusal) => give_refusal(refusal, first, second),
    }
}
