// The bench: prints the listing of the frames on standard input.
#![tactic(auto)]

use std::io;

fn main(rt: HostRuntime) -> io::Result<()> {
    desk::run::run(&mut rt.stdin(), &mut rt.stdout(), false)
}
