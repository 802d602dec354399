// The command of a net file at a place.
ghost use Rattle.std.specs.Prelude.{◌≡◌};
ghost use Rattle.net_reader.specs.Heads.{head_at};
ghost use Rattle.net_reader.specs.Replies.{head_told};

use net::width;
use reading::{Reason, Refusal, refused};

// A command's byte and the place after its operands.
#[derive(Clone, Copy, Debug, PartialEq, Eq)]
pub struct Head {
    pub byte: u8,
    pub next: usize,
}

// The command at a place.
pub fn head_at(file: &[u8], at: usize) -> Result<Head, Refusal>
    ensures { head_told result ≡ head_at file.now at }
{
    if file.len() <= at {
        return refused(Reason::CutOff, file.len());
    }
    let byte = file[at];
    let Some(operands) = width(byte) else {
        return refused(Reason::StrayByte, at);
    };
    if file.len() - at <= operands as usize {
        return refused(Reason::CutOff, file.len());
    }
    Ok(Head {
        byte,
        next: at + (1 + operands as usize),
    })
}
