// The program `fieldcard`: it reads one card from standard input, and writes the answer to standard output. A write that fails is its error.
#![tactic(auto)]

use program::input::Input;
use std::io;

fn main(rt: HostRuntime) -> io::Result<()> {
    let mut input = Input { reader: rt.stdin() };
    program::program::run(&mut input, &mut rt.stdout())
}
