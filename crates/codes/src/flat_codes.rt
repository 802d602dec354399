// What the calls on flat files reply, as codes and numbers.
ghost use Rattle.std.specs.Prelude.{◌≡◌, ◌∷◌, Result};
ghost use Rattle.reading.specs.Basics.{[]};
ghost use Rattle.flat.specs.Replies.{first_reply, sizes_reply};
ghost use Rattle.codes.specs.Codes.{returned, first_row_code, sizes_code};

use crate::give::{give, give_refusal};
use firing::Searched;
use flat_file::FlatSizes;
use reading::Refusal;

// Code 1: how many flat places and rows a flat file has.
pub fn give_sizes(reply: Result<FlatSizes, Refusal>, first: &mut usize, second: &mut usize) -> u8
    ensures { returned result (first.new ∷ second.new ∷ []) [] ≡ sizes_code (sizes_reply reply) }
{
    match reply {
        Ok(sizes) => give(1, sizes.places, sizes.rows, first, second),
        Err(refusal) => give_refusal(refusal, first, second),
    }
}

// Code 1: the row, and how many were tried. Code 2: none, and how many were tried.
pub fn give_row(
    reply: Result<Searched<usize>, Refusal>,
    first: &mut usize,
    second: &mut usize,
) -> u8
    ensures { returned result (first.new ∷ second.new ∷ []) [] ≡ first_row_code (first_reply reply) }
{
    match reply {
        Ok(searched) => match searched.found {
            Some(row) => give(1, row, searched.tried, first, second),
            None => give(2, searched.tried, 0, first, second),
        },
        Err(refusal) => give_refusal(refusal, first, second),
    }
}
