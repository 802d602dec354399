// The rows of a flat file that was read: each is loaded where it is fired or tried.
ghost use Rattle.std.specs.Prelude.{◌≡◌, ◌<◌, ◌≤◌, [], ℕ, length, get_or, eqb, ◌/◌};
ghost use Rattle.reading.specs.Basics.{below, items};
ghost use Rattle.firing.specs.Firing.{fired, first};
ghost use Rattle.firing.specs.Arcs.{row, Proper};
ghost use Rattle.firing.specs.Replies.{answer_number, searched};
ghost use Rattle.firing.specs.internal.Loops.{Ran};
ghost use Rattle.firing.specs.internal.RowLists.{EndsWithin, row_in};
ghost use Rattle.flat_file.specs.Flat.{Flat, fire_row, fire_image};
ghost use Rattle.flat_file.specs.internal.ReaderEnums.{most_arcs, FlatHeld};
ghost use Rattle.flat.specs.internal.Stand.{AllStand};

use firing::{Answer, Arc, Ends, Searched, answer, fire_row, row_arcs};
use flat_file::load_arcs;
use reading::{byte_at, long_at};

// The file, how many flat places it has, and where the arcs of each row start, at most ARCS each.
#[derive(Clone, Copy)]
pub struct Rows<'a, const ARCS: usize> {
    pub file: &'a [u8],
    pub places: usize,
    pub starts: &'a [u32],
    ghost few_places: { places ≤ 4096 },
    ghost few_arcs: { most_arcs (length file.now) ≤ ARCS },
    ghost all_stand: { AllStand file.now places starts.now },
}

impl<const ARCS: usize> Rows<'_, ARCS> {
    // Loads the row number i: where its kinds end in the list lent for its arcs.
    fn load(&self, i: usize, arcs: &mut [Arc; ARCS]) -> Ends
        requires { i < length self.now.starts.now }
        ensures within { EndsWithin arcs.new result.takes result.puts result.hinders }
        ensures is { (n : ℕ) (f : Flat) → FlatHeld self.now.file.now self.now.starts.now n (length self.now.starts.now) f
            → (row_in arcs.new result.takes result.puts result.hinders ≡ get_or f.rows i (row [] [] [])) × Proper n (get_or f.rows i (row [] [] [])) }
    {
        load_arcs(self.file, self.starts[i] as usize, arcs)
    }

    // Fires an image.
    fn fire_nth(&self, image: &[u8], m: &mut [u16], arcs: &mut [Arc; ARCS]) -> Answer
        ensures { (f : Flat) → FlatHeld self.now.file.now self.now.starts.now (length m.old) (length self.now.starts.now) f
            → fired (answer_number result) m.new ≡ fire_image f image.now m.old }
    {
        if byte_at(image, 0) != 0x61 {
            return Answer::NoBinding;
        }
        let row = long_at(image, 1);
        if self.starts.len() <= row {
            return Answer::NoBinding;
        }
        let ends = self.load(row, arcs);
        fire_row(row_arcs(arcs, ends), m)
    }

    // Fires each image of a list, 5 bytes each, an answer each.
    pub fn fire_list(
        &self,
        m: &mut [u16],
        images: &[u8],
        answers: &mut [u8],
        arcs: &mut [Arc; ARCS],
    )
        requires { length images.now / 5 ≤ length answers.old }
        ensures { (f : Flat) → FlatHeld self.now.file.now self.now.starts.now (length m.old) (length self.now.starts.now) f
            → Ran (fire_image f) (items 5 images.now) m.old answers.old m.new answers.new }
    {
        for i in 0..images.len() / 5 {
            let image = &images[i * 5..i * 5 + 5];
            answers[i] = self.fire_nth(image, m, arcs).number();
        }
    }

    // The first row that fires, or none.
    pub fn search_rows(&self, m: &[u16], arcs: &mut [Arc; ARCS]) -> Searched<usize>
        ensures { (f : Flat) → FlatHeld self.now.file.now self.now.starts.now (length m.now) (length self.now.starts.now) f
            → first (λ i. eqb (fire_row f i m.now).answer 0) (below (length self.now.starts.now)) ≡ searched (λ i. i) result }
    {
        for i in 0..self.starts.len() {
            let ends = self.load(i, arcs);
            if answer(row_arcs(arcs, ends), m) == Answer::Fired {
                return Searched {
                    found: Some(i),
                    tried: i + 1,
                };
            }
        }
        Searched {
            found: None,
            tried: self.starts.len(),
        }
    }
}
