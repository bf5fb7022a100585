// The witness: prints the listing of the frames on standard input, and after each line the answer, the records and their store.
#![tactic(auto)]

use std::io;

fn main(rt: HostRuntime) -> io::Result<()> {
    desk::run::run(&mut rt.stdin(), &mut rt.stdout(), true)
}
