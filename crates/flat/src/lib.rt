// The flat engine: how many places and rows a flat file has, firing images on it, and its first row that fires.
#![tactic(auto)]

mod rows;

ghost use Rattle.std.specs.Prelude.{◌≡◌, ◌≤◌, length};
ghost use Rattle.flat_file.specs.Flat.{fire_images, first_row, flat_sizes};
ghost use Rattle.flat_file.specs.internal.ReaderEnums.{most_rows, most_arcs};
ghost use Rattle.flat.specs.Replies.{fire_called, first_reply, sizes_reply};

use firing::Arc;
pub use firing::Searched;
pub use flat_file::FlatSizes;
use flat_file::scan_file;
pub use reading::Refusal;
use reading::{Reason, once_more, refused};
use rows::Rows;

// How many flat places and rows a flat file has, or the refusal.
#[tactic(auto, using(crate::proofs::Calling::the_reply))]
pub fn flat_sizes(flat: &[u8]) -> Result<FlatSizes, Refusal>
    ensures { sizes_reply result ≡ flat_sizes flat.now }
{
    scan_file(flat, &mut [])
}

// Fires a list of images with tables for so many rows, and so many arcs in a row.
fn fire_sized<const STARTS: usize, const ARCS: usize>(
    file: &[u8],
    m: &mut [u16],
    images: &[u8],
    answers: &mut [u8],
) -> Result<usize, Refusal>
    requires few_rows { (most_rows (length file.now) ≤ STARTS) × (STARTS ≤ 65536) }
    requires few_arcs { (most_arcs (length file.now) ≤ ARCS) × (ARCS ≤ 12288) }
    ensures { fire_called result m.new answers.new
        ≡ fire_images file.now m.old images.now answers.old }
{
    let mut starts = [0u32; STARTS];
    let sizes = scan_file(file, &mut starts)?;
    if m.len() != sizes.places {
        return refused(Reason::WrongMarking, 0);
    }
    if images.len() % 5 != 0 {
        return refused(Reason::RaggedList, 0);
    }
    if answers.len() < images.len() / 5 {
        return refused(Reason::NoSpace, 0);
    }
    let rows = Rows::<ARCS> {
        file,
        places: sizes.places,
        starts: &starts[..sizes.rows],
    };
    let mut arcs = [Arc::default(); ARCS];
    rows.fire_list(m, images, answers, &mut arcs);
    Ok(images.len() / 5)
}

// On any file. Kept apart (once_more).
#[inline(never)]
fn fire_long(
    flat: &[u8],
    marking: &mut [u16],
    images: &[u8],
    answers: &mut [u8],
    again: bool,
) -> Result<usize, Refusal>
    ensures { fire_called result marking.new answers.new
        ≡ fire_images flat.now marking.old images.now answers.old }
{
    if once_more(flat, again) {
        return fire_long(flat, marking, images, answers, false);
    }
    fire_sized::<65536, 12288>(flat, marking, images, answers)
}

// Fires a list of images, 5 bytes each, on a flat file and a marking, an answer each: how many, or the refusal, which changes neither
// list. A file of at most 2,048 bytes has no more rows, and in a row an arc for each 5 of them at most.
pub fn fire_images(
    flat: &[u8],
    marking: &mut [u16],
    images: &[u8],
    answers: &mut [u8],
) -> Result<usize, Refusal>
    ensures { fire_called result marking.new answers.new
        ≡ fire_images flat.now marking.old images.now answers.old }
{
    if flat.len() <= 2048 {
        return fire_sized::<2048, 410>(flat, marking, images, answers);
    }
    fire_long(flat, marking, images, answers, true)
}

// The first row that fires, with tables for so many rows, and so many arcs in a row.
fn first_sized<const STARTS: usize, const ARCS: usize>(
    file: &[u8],
    m: &[u16],
) -> Result<Searched<usize>, Refusal>
    requires few_rows { (most_rows (length file.now) ≤ STARTS) × (STARTS ≤ 65536) }
    requires few_arcs { (most_arcs (length file.now) ≤ ARCS) × (ARCS ≤ 12288) }
    ensures { first_reply result ≡ first_row file.now m.now }
{
    let mut starts = [0u32; STARTS];
    let sizes = scan_file(file, &mut starts)?;
    if m.len() != sizes.places {
        return refused(Reason::WrongMarking, 0);
    }
    let rows = Rows::<ARCS> {
        file,
        places: sizes.places,
        starts: &starts[..sizes.rows],
    };
    let mut arcs = [Arc::default(); ARCS];
    Ok(rows.search_rows(m, &mut arcs))
}

// On any file. Kept apart (once_more).
#[inline(never)]
fn first_long(flat: &[u8], marking: &[u16], again: bool) -> Result<Searched<usize>, Refusal>
    ensures { first_reply result ≡ first_row flat.now marking.now }
{
    if once_more(flat, again) {
        return first_long(flat, marking, false);
    }
    first_sized::<65536, 12288>(flat, marking)
}

// The first row that would be answered 0, or none; with how many were tried. Or the refusal.
pub fn first_row(flat: &[u8], marking: &[u16]) -> Result<Searched<usize>, Refusal>
    ensures { first_reply result ≡ first_row flat.now marking.now }
{
    if flat.len() <= 2048 {
        return first_sized::<2048, 410>(flat, marking);
    }
    first_long(flat, marking, true)
}
