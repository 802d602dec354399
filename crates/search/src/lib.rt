// Finds the first order that would fire on a net file.
#![tactic(auto)]

mod engine;

ghost use Rattle.std.specs.Prelude.{◌≡◌};
ghost use Rattle.bindings.specs.Orders.{first_order};
ghost use Rattle.search.specs.Replies.{first_reply};

pub use bindings::Order;
use engine::first_on;
pub use firing::Searched;
use prepared::Drawing;
use reading::{Reason, Refusal, refused};

// The first order that would be answered 0 on a net file and a marking, or none, with how many bindings were tried. Or the refusal.
pub fn first_order(net: &[u8], marking: &[u16]) -> Result<Searched<Order>, Refusal>
    ensures { first_reply result ≡ first_order net.now marking.now }
{
    let mut plan = [0u32; 3584];
    let drawing = Drawing::read(net, &mut plan, &mut [])?;
    if marking.len() != drawing.flat_places() {
        return refused(Reason::WrongMarking, 0);
    }
    Ok(first_on(&drawing, marking))
}
