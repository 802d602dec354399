// The program: reads a net file from standard input, and writes its flat file or the line of its refusal to standard output.
#![tactic(auto)]

mod input;

ghost use Rattle.std.specs.Prelude.{◌≤◌, length};

use input::read_input;
use std::io::{Error, Write};
use std::process::ExitCode;
use unfolding::write_reply;

// Where the words said of an error end: before the system's number for it, or what was not written.
fn words_end(said: &[u8]) -> usize
    ensures { result ≤ length said.now }
{
    for i in 0..said.len() {
        if said[i] == 0 || said[i..].starts_with(b" (os error ") {
            return i;
        }
    }
    said.len()
}

// One line on standard error: what failed, and the system's words for it.
fn complain(rt: HostRuntime, what: &str, error: &Error) {
    let mut line = [0u8; 512];
    let mut rest = &mut line[..];
    let _ = write!(rest, "unfold: {what}: {error}");
    let said = words_end(&line);
    let mut to = rt.stderr();
    let _ = to.write_all(&line[..said]);
    let _ = to.write_all(b"\n");
}

// Where standard input cannot be read nothing is written to standard output: a line on standard error says what failed,
// and the exit code is 1, as it is where standard output cannot be written.
// One byte more than the longest net file is read: a longer one is refused whatever follows.
fn main(rt: HostRuntime) -> ExitCode {
    let mut net = [0u8; 16385];
    let length = match read_input(&mut rt.stdin(), &mut net) {
        Ok(length) => length,
        Err(error) => {
            complain(rt, "reading standard input", &error);
            return ExitCode::FAILURE;
        }
    };
    let mut out = [0u8; 65536];
    let size = write_reply(&net[..length], &mut out);
    if let Err(error) = rt.write_all(&out[..size]) {
        complain(rt, "writing standard output", &error);
        return ExitCode::FAILURE;
    }
    ExitCode::SUCCESS
}
