// The net file as its bytes and a position.
ghost use Rattle.std.specs.Prelude.{◌≡◌};
ghost use Rattle.net_reader.specs.Replies.{net_reply, head_told};
ghost use Rattle.net_reader.specs.Sizes.{net_sizes};
ghost use Rattle.net_reader.specs.Heads.{head_at, next_place};

use crate::head::{Head, head_at};
use crate::sizes::{NetSizes, net_sizes};
use reading::Refusal;

#[derive(Clone, Copy)]
pub struct Reader<'a> {
    pub bytes: &'a [u8],
    pub at: usize,
}

impl<'a> Reader<'a> {
    // At the file's first byte.
    pub fn start(bytes: &'a [u8]) -> Reader<'a>
        ensures { (result.bytes ≡ bytes.entry) × (result.at ≡ 0) }
    {
        Reader { bytes, at: 0 }
    }

    pub fn position(self) -> usize
        ensures { result ≡ self.entry.at }
    {
        self.at
    }

    // The command that stands here.
    pub fn head(self) -> Result<Head, Refusal>
        ensures { head_told result ≡ head_at self.entry.bytes.now self.entry.at }
    {
        head_at(self.bytes, self.at)
    }

    // Past the command that stands here; at a fault, where it is.
    pub fn moved(self) -> Reader<'a>
        ensures { (result.bytes ≡ self.entry.bytes) × (result.at ≡ next_place self.entry.bytes.now self.entry.at) }
    {
        Reader {
            bytes: self.bytes,
            at: self.head().map_or(self.at, |head| head.next),
        }
    }

    // How large the net of the whole file is, wherever the reader stands.
    pub fn sizes(self) -> Result<NetSizes, Refusal>
        ensures { net_reply result ≡ net_sizes self.entry.bytes.now }
    {
        net_sizes(self.bytes)
    }
}
