// The calls of the flat side: each reads its buffers, and runs on exactly their lengths.
use crate::lines::fired_case;
use std::io;
use std::io::{Read, Write};
use streams::{file_buffer, marking_buffer, read_bytes, read_counts};

pub fn sizes_case<R: Read, W: Write>(from: &mut R, to: &mut W) -> io::Result<()> {
    let mut file = file_buffer();
    let file = read_bytes(from, &mut file);
    match flat::flat_sizes(file) {
        Ok(sizes) => writeln!(to, "places {} rows {}", sizes.places, sizes.rows),
        Err(refusal) => writeln!(to, "{refusal}"),
    }
}

pub fn first_case<R: Read, W: Write>(from: &mut R, to: &mut W) -> io::Result<()> {
    let mut file = file_buffer();
    let mut marking = marking_buffer();
    let file = read_bytes(from, &mut file);
    let marking = read_counts(from, &mut marking);
    let searched = match flat::first_row(file, marking) {
        Ok(searched) => searched,
        Err(refusal) => return writeln!(to, "{refusal}"),
    };
    match searched.found {
        Some(row) => writeln!(to, "found {row} tried {}", searched.tried),
        None => writeln!(to, "nothing tried {}", searched.tried),
    }
}

pub fn fire_case<R: Read, W: Write>(from: &mut R, to: &mut W) -> io::Result<()> {
    fired_case(from, to, flat::fire_images)
}
