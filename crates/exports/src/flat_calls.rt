// The calls on flat files.
ghost use Rattle.std.specs.Prelude.{◌≡◌, ◌∷◌};
ghost use Rattle.reading.specs.Basics.{[]};
ghost use Rattle.flat_file.specs.Flat.{fire_images, first_row, flat_sizes};
ghost use Rattle.codes.specs.Codes.{returned, fire_code, first_row_code, sizes_code};

use codes::{give_count, give_row, give_sizes};

// Reads a flat file. Code 1: how many flat places and rows it has.
#[unsafe(no_mangle)]
pub extern "C" fn kwz_flat_sizes(flat: &[u8], first: &mut usize, second: &mut usize) -> u8
    ensures { returned result (first.new ∷ second.new ∷ []) [] ≡ sizes_code (flat_sizes flat.now) }
{
    give_sizes(flat::flat_sizes(flat), first, second)
}

// The first row that would fire. Code 1: the row, and how many were tried. Code 2: none, and how many were tried.
#[unsafe(no_mangle)]
pub extern "C" fn kwz_first_row(
    flat: &[u8],
    marking: &[u16],
    first: &mut usize,
    second: &mut usize,
) -> u8
    ensures { returned result (first.new ∷ second.new ∷ []) [] ≡ first_row_code (first_row flat.now marking.now) }
{
    give_row(flat::first_row(flat, marking), first, second)
}

// Fires a list of images. Code 1: how many were answered.
#[unsafe(no_mangle)]
pub extern "C" fn kwz_fire_images(
    flat: &[u8],
    marking: &mut [u16],
    images: &[u8],
    answers: &mut [u8],
    first: &mut usize,
    second: &mut usize,
) -> u8
    ensures { returned result (first.new ∷ second.new ∷ []) (marking.new ∷ answers.new ∷ [])
        ≡ fire_code (fire_images flat.now marking.old images.now answers.old) }
{
    give_count(
        flat::fire_images(flat, marking, images, answers),
        first,
        second,
    )
}
