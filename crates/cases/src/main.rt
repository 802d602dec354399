// The test program: reads a stream of cases, makes their calls, and writes what each returned and every buffer that was lent for writing.
// tests/README.md tells both forms.
#![tactic(auto)]

mod call;
mod flat_calls;
mod lines;
mod net_calls;

use call::Call;
use flat_calls::{fire_case, first_case, sizes_case};
use net_calls::{
    first_order_case, images_case, net_sizes_case, order_case, orders_case, unfold_case,
};
use std::io;
use std::io::{Read, Write};
use streams::read_call;

// Runs one call by its number, and answers whether there is such a call.
fn run<R: Read, W: Write>(from: &mut R, to: &mut W, call: u8, number: u64) -> io::Result<bool> {
    let Ok(call) = Call::try_from(call) else {
        write!(to, "case {number} {}", "of no call\n")?;
        return Ok(false);
    };
    write!(to, "case {number} {call}")?;
    match call {
        Call::FlatSizes => sizes_case(from, to)?,
        Call::FirstRow => first_case(from, to)?,
        Call::FireImages => fire_case(from, to)?,
        Call::Unfold => unfold_case(from, to)?,
        Call::Images => images_case(from, to)?,
        Call::RowOrder => order_case(from, to)?,
        Call::FireOrders => orders_case(from, to)?,
        Call::FirstOrder => first_order_case(from, to)?,
        Call::NetSizes => net_sizes_case(from, to)?,
    }
    Ok(true)
}

// Runs the case with this number, and answers whether to go on.
fn one_case<R: Read, W: Write>(from: &mut R, to: &mut W, number: u64) -> io::Result<bool> {
    match read_call(from) {
        Some(call) => run(from, to, call, number),
        None => Ok(false),
    }
}

fn main(rt: HostRuntime) -> io::Result<()> {
    let mut from = rt.stdin();
    let mut to = rt.stdout();
    for number in 1..u64::MAX {
        if !one_case(&mut from, &mut to, number)? {
            break;
        }
    }
    Ok(())
}
