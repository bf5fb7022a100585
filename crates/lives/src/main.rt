// Runs scripted lives of one record and prints what comes of each line: the lives listing.
#![tactic(auto)]

mod life;
mod publication;
mod script;

use life::Life;
use std::io;

fn main(rt: HostRuntime) -> io::Result<()> {
    let room: &mut [u8] = &mut [0; 4096];
    page::listing::run(&mut rt.stdin(), &mut rt.stdout(), room, &mut Life::none())
}
