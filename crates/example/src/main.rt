// A server's code at its smallest: open the table, add an address, handle a request, send the answer. Every result is looked at.
#![tactic(auto)]

use std::io;
use text::part::part_of;

fn main(rt: HostRuntime) -> io::Result<()> {
    let mut records = [lent::empty(); 16];
    let store: &mut [u8] = &mut [0; 65536];
    let answer: &mut [u8] = &mut [0; 4608];
    let request =
        b"PUBLISH ann SIP/2.0\r\nv: SIP/2.0/UDP pua\r\nf: <ann>;tag=1\r\nt: <ann>\r\ni: 1\r\nCSeq: 1 PUBLISH\r\nEvent: presence\r\nExpires: 3600\r\nc: application/pidf+xml\r\n\r\nx";
    let opened = windgusset::open(&mut records, store);
    let added = windgusset::add(&mut records, store, b"ann", 0, 0);
    let handled = windgusset::handle(&mut records, store, 100, 1, request, answer);
    let message = part_of(answer, 0, handled.length);
    let done = opened.is_ok() && added.is_ok() && !message.is_empty();
    if !done || rt.write_all(message).is_err() {
        eprintln!(rt; "no answer was written")?;
    }
    Ok(())
}
