// The rows of a flat file, from a net with its marks: how many bytes they take, and the bytes themselves, binding by binding.
ghost use Rattle.std.specs.Prelude.{◌≡◌, ◌+◌, ◌≤◌, ◌<◌, length};
ghost use Rattle.prepared.specs.internal.Drawn.{net_of};
ghost use Rattle.bindings.specs.internal.Bindings.{BindsIts};
ghost use Rattle.flat_file.specs.internal.Output.{Appended};
ghost use Rattle.row_bytes.specs.internal.RowBytes.{bytes_at, its_bytes, all_bytes, Bound};

use crate::marked::Marked;
use crate::stretch::Stretch;
use bindings::{next_binding, skip_bindings};
use firing::{Arc, row_arcs};
use flat_file::write_row;
use row_numbers::{has_none, has_row};
use rows::load_row;

impl<const ARCS: usize> Stretch<'_, ARCS> {
    // How many bytes binding number i gives: those of its row, if it has one.
    fn measure_one(&self, env: &[u8; 32], i: usize, arcs: &mut [Arc; ARCS]) -> usize
        requires inside { i < self.now.many }
        requires binds { BindsIts self.now.transition i env.now }
        ensures is { result ≡ length (bytes_at self.now.transition i) }
        ensures small { result ≤ 61441 }
    {
        let plan = self.transition.plan();
        let t = self.transition.number();
        if has_row(plan, t, self.marks, self.base + i) {
            let ends = load_row(&self.transition, env, arcs);
            return 1 + 5 * ends.hinders;
        }
        0
    }

    // How many bytes all of them give.
    fn measure_bindings(&self, arcs: &mut [Arc; ARCS]) -> usize
        ensures is { result ≡ length (its_bytes self.now.transition) }
        ensures small { result ≤ 4026597376 }
    {
        let mut env = [0u8; 32];
        let mut total: usize = 0;
        for i in 0..self.many {
            total += self.measure_one(&env, i, arcs);
            next_binding(&self.transition, &mut env);
        }
        total
    }

    // Writes the row of a binding that has one.
    fn write_bound(
        &self,
        env: &[u8; 32],
        arcs: &mut [Arc; ARCS],
        out: &mut [u8],
        at: usize,
    ) -> usize
        requires { (h : Bound self.now.transition env.now) × (at + length (bytes_at self.now.transition h.index) ≤ length out.old) }
        ensures { (h : Bound self.now.transition env.now) → Appended out.old out.new at result (bytes_at self.now.transition h.index) }
    {
        let ends = load_row(&self.transition, env, arcs);
        write_row(row_arcs(arcs, ends), out, at)
    }

    // Writes the rows of all of them. Where a word of their marks is 0, it passes over 32 at once:
    // a while, since it goes on by 32 or by one.
    fn write_bindings(&self, arcs: &mut [Arc; ARCS], out: &mut [u8], at: usize) -> usize
        requires { at + length (its_bytes self.now.transition) ≤ length out.old }
        ensures { Appended out.old out.new at result (its_bytes self.now.transition) }
    {
        let Stretch {
            many,
            base,
            marks,
            ..
        } = *self;
        let plan = self.transition.plan();
        let t = self.transition.number();
        let mut env = [0u8; 32];
        let mut next = at;
        let mut i: usize = 0;
        while i < many {
            if has_none(plan, t, marks, base + i, many - i) {
                skip_bindings(&self.transition, 32, &mut env);
                i += 32;
            } else if has_row(plan, t, marks, base + i) {
                next = self.write_bound(&env, arcs, out, next);
                next_binding(&self.transition, &mut env);
                i += 1;
            } else {
                next_binding(&self.transition, &mut env);
                i += 1;
            }
        }
        next
    }
}

impl<const ARCS: usize> Marked<'_, ARCS> {
    // How many bytes the rows of all transitions take.
    pub(crate) fn measure_all(&self, arcs: &mut [Arc; ARCS]) -> usize
        ensures is { result ≡ length (all_bytes (net_of self.now.drawing.now)) }
        ensures small { result ≤ 128851116032 }
    {
        let mut total: usize = 0;
        for those in self.stretches() {
            total += those.measure_bindings(arcs);
        }
        total
    }

    // Writes the rows of all transitions.
    pub fn write_all(&self, arcs: &mut [Arc; ARCS], out: &mut [u8], at: usize) -> usize
        requires { at + length (all_bytes (net_of self.now.drawing.now)) ≤ length out.old }
        ensures { Appended out.old out.new at result (all_bytes (net_of self.now.drawing.now)) }
    {
        let mut next = at;
        for those in self.stretches() {
            next = those.write_bindings(arcs, out, next);
        }
        next
    }
}
