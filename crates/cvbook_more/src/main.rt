// The wider program: it answers a log of all commands.
#![tactic(auto)]

use commands::Vocabulary;
use replay::replay;
use std::io;

fn main(rt: HostRuntime) -> io::Result<()> {
    replay(
        rt.alloc(),
        &mut rt.stdin(),
        &mut rt.stdout(),
        Vocabulary::Whole,
    )
}
