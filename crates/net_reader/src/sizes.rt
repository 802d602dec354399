// The call that reads a net file and tells how large the net is.
ghost use Rattle.std.specs.Prelude.{◌≡◌};
ghost use Rattle.net_reader.specs.Replies.{net_reply};
ghost use Rattle.net_reader.specs.Sizes.{net_sizes};

use net_file::{Tables, read_net};
use reading::Refusal;

// How many flat places, transitions and bindings a net file has.
#[derive(Clone, Copy, Debug, PartialEq, Eq)]
pub struct NetSizes {
    pub places: usize,
    pub transitions: usize,
    pub bindings: usize,
}

// The file is read into tables of its own; no count of tokens is kept.
#[tactic(auto, using(crate::proofs::Counting::no_sizes, crate::proofs::Counting::the_sizes))]
pub fn net_sizes(net: &[u8]) -> Result<NetSizes, Refusal>
    ensures { net_reply result ≡ net_sizes net.now }
{
    let mut tables = Tables::new();
    let mut arcs = [0u32; 3072];
    let mut initial = [0u16; 0];
    let counts = read_net(net, &mut tables, &mut arcs, &mut initial)?;
    Ok(NetSizes {
        places: counts.total,
        transitions: counts.transitions,
        bindings: counts.space,
    })
}
