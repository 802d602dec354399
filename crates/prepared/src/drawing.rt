// A net file that was read and accepted, with its table. What is known of both lies in the type.
ghost use Rattle.std.specs.Prelude.{◌≡◌, ◌<◌, ◌≤◌, length};

use crate::fill::prepare;
use crate::transition::Transition;
use plan::{flat_places_of, transitions_of};
use reading::Refusal;
use std::marker::Model;

// A net file and its table.
#[derive(Clone, Drop)]
pub struct Drawing<'a> {
    pub(crate) file: &'a [u8],
    pub(crate) plan: &'a [u32; 3584],
}

impl<'a> Model for Drawing<'a> {
    ghost use Rattle.prepared.specs.internal.Drawn.{Drawn, drawn, IsDrawn};

    ghost Value = { Drawn };

    ghost view = { λ d. drawn d.file.now d.plan.now };

    ghost invariant = { λ d. IsDrawn d.file.now d.plan.now };
}

impl<'a> Drawing<'a> {
    ghost use Rattle.net.specs.Net.{flat_place_count};
    ghost use Rattle.prepared.specs.internal.Drawn.{net_of, drawn_transition, IsDrawn, DrawingTold};

    // Reads a net file, into a lent table, and its initial counts into a list, as far as it reaches.
    pub fn read(
        net: &'a [u8],
        plan: &'a mut [u32; 3584],
        initial: &mut [u16],
    ) -> Result<Drawing<'a>, Refusal>
        ensures { DrawingTold net.now initial.new result }
    {
        prepare(net, plan, initial)?;
        Ok(Drawing { file: net, plan })
    }

    // The drawing of a file that was read before and its table, which can be kept and copied by themselves.
    pub fn of(file: &'a [u8], plan: &'a [u32; 3584]) -> Drawing<'a>
        requires { IsDrawn file.now plan.now }
        ensures { (result.file ≡ file.now) × (result.plan ≡ plan.now) }
    {
        Drawing { file, plan }
    }

    // Its file.
    pub fn file(&self) -> &'a [u8]
        ensures is { result.now ≡ self.now.file }
        ensures known { IsDrawn self.now.file self.now.plan }
    {
        self.file
    }

    // Its table.
    pub fn plan(&self) -> &'a [u32; 3584]
        ensures is { result.now ≡ self.now.plan }
        ensures known { IsDrawn self.now.file self.now.plan }
    {
        self.plan
    }

    // How many transitions it has.
    pub fn transitions(&self) -> usize
        ensures is { result ≡ length (net_of self.now).transitions }
        ensures small { result ≤ 32 }
        ensures known { IsDrawn self.now.file self.now.plan }
    {
        transitions_of(self.plan)
    }

    // How many flat places it has.
    pub fn flat_places(&self) -> usize
        ensures is { result ≡ flat_place_count (net_of self.now) }
        ensures small { result ≤ 4096 }
        ensures known { IsDrawn self.now.file self.now.plan }
    {
        flat_places_of(self.plan)
    }

    // Transition number t.
    pub fn transition(&self, t: usize) -> Transition<'a>
        requires { t < length (net_of self.now).transitions }
        ensures { result ≡ drawn_transition self.now t }
    {
        Transition {
            file: self.file,
            plan: self.plan,
            number: t,
        }
    }
}
