//! What the programs read: the file that their first argument names, or standard input.
#![tactic(auto)]

ghost use Rattle.std.specs.Prelude.{◌≡◌, Ok};

use std::io::Read;
use std::{env, fs, io};

/// All bytes of standard input.
fn read_stdin(rt: &HostRuntime) -> io::Result<Vec<u8>> {
    let mut bytes = Vec::new(rt.alloc());
    rt.stdin().read_to_end(&mut bytes)?;
    Ok(bytes)
}

/// Hands on what was read. If nothing could be, standard error is told of what and why.
fn told(
    rt: &HostRuntime,
    program: &str,
    name: &str,
    read: io::Result<Vec<u8>>,
) -> io::Result<Vec<u8>>
    ensures kept { (bytes : _) → read ≡ Ok bytes → result ≡ Ok bytes }
    ensures only { (bytes : _) → result ≡ Ok bytes → read ≡ Ok bytes }
{
    if let Err(reason) = &read {
        eprintln!(rt; "{program}: cannot read {name}: {reason}")?;
    }
    read
}

/// The bytes of the file that the first argument names, or of standard input if there is none. They are the world's: nothing is promised of them.
pub fn read_input(rt: &HostRuntime, program: &str) -> io::Result<Vec<u8>> {
    match env::args(rt)?.nth(1) {
        Some(name) => told(rt, program, name.as_str(), fs::read(rt, name.as_str())),
        None => told(rt, program, "standard input", read_stdin(rt)),
    }
}
