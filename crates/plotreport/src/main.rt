// Reads a sheet from standard input, and writes its report or its refusal to standard output. A read or a write that fails is said on
// standard error, and gives the exit status 1.
#![tactic(auto)]

mod input;
mod program;

use input::read_front;
use program::{BYTES, READ, answer};
use std::io;

fn main(rt: HostRuntime) -> io::Result<()> {
    let mut text = [0u8; READ];
    let mut out = [0u8; BYTES];
    let n = read_front(&mut rt.stdin(), &mut text)?;
    rt.write_all(answer(&text[..n], &mut out))
}
