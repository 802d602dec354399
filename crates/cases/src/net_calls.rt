// The calls on net files: each reads its buffers, and runs on exactly their lengths.
use crate::lines::{fired_case, say_reply};
use bindings::Order;
use std::io;
use std::io::{Read, Write};
use streams::{
    file_buffer, list_buffer, marking_buffer, read_bytes, read_counts, read_row, say_list,
};

pub fn unfold_case<R: Read, W: Write>(from: &mut R, to: &mut W) -> io::Result<()> {
    let mut file = file_buffer();
    let mut out = file_buffer();
    let file = read_bytes(from, &mut file);
    let out = read_bytes(from, &mut out);
    say_reply(to, "written ", unfolding::unfold(file, out))?;
    say_list(to, "output", out)
}

pub fn images_case<R: Read, W: Write>(from: &mut R, to: &mut W) -> io::Result<()> {
    let mut file = file_buffer();
    let mut orders = list_buffer();
    let mut out = list_buffer();
    let file = read_bytes(from, &mut file);
    let orders = read_bytes(from, &mut orders);
    let out = read_bytes(from, &mut out);
    say_reply(to, "answered ", images::images(file, orders, out))?;
    say_list(to, "output", out)
}

// An order's six bytes, after a word; the line goes on.
fn say_order<W: Write>(to: &mut W, word: &str, order: Order) -> io::Result<()> {
    let [first, second, third, fourth] = order.colours;
    write!(
        to,
        "{word}{}{} {first} {second} {third} {fourth}",
        "96 ", order.transition
    )
}

pub fn order_case<R: Read, W: Write>(from: &mut R, to: &mut W) -> io::Result<()> {
    let mut file = file_buffer();
    let file = read_bytes(from, &mut file);
    let row = read_row(from);
    match images::row_order(file, row) {
        Ok(Some(order)) => {
            say_order(to, "order ", order)?;
            writeln!(to)
        }
        Ok(None) => writeln!(to, "none"),
        Err(refusal) => writeln!(to, "{refusal}"),
    }
}

pub fn orders_case<R: Read, W: Write>(from: &mut R, to: &mut W) -> io::Result<()> {
    fired_case(from, to, coloured::fire_orders)
}

pub fn first_order_case<R: Read, W: Write>(from: &mut R, to: &mut W) -> io::Result<()> {
    let mut file = file_buffer();
    let mut marking = marking_buffer();
    let file = read_bytes(from, &mut file);
    let marking = read_counts(from, &mut marking);
    let searched = match search::first_order(file, marking) {
        Ok(searched) => searched,
        Err(refusal) => return writeln!(to, "{refusal}"),
    };
    match searched.found {
        Some(order) => {
            say_order(to, "found ", order)?;
            writeln!(to, " tried {}", searched.tried)
        }
        None => writeln!(to, "nothing tried {}", searched.tried),
    }
}

pub fn net_sizes_case<R: Read, W: Write>(from: &mut R, to: &mut W) -> io::Result<()> {
    let mut file = file_buffer();
    let file = read_bytes(from, &mut file);
    match net_reader::net_sizes(file) {
        Ok(sizes) => writeln!(
            to,
            "places {} transitions {} bindings {}",
            sizes.places, sizes.transitions, sizes.bindings
        ),
        Err(refusal) => writeln!(to, "{refusal}"),
    }
}
