// Reads a field sheet on standard input and prints its page, or `refused N`.
#![tactic(auto)]

use std::io;

// More than any answer has: 265,780 bytes at most (crates/rooms).
const ROOM: usize = 524288;

// A buffer for the answer. Its length is all that is told of it: its bytes are written before they are read.
fn answer_buffer() -> [u8; ROOM] {
    [0; ROOM]
}

fn print_page(rt: &HostRuntime) -> io::Result<()> {
    // One byte more than a sheet may have, so that a longer input is known as such, however long it is.
    let mut sheet = [0u8; streams::SHEET_ROOM];
    let n = streams::read_full(&mut rt.stdin(), &mut sheet)?;
    let mut out = answer_buffer();
    let answer = field_calls::page(&sheet[..n], &mut out);
    print_answer::print_answer(&mut rt.stdout(), &mut rt.stderr(), &out, answer)?;
    Ok(())
}

fn main(rt: HostRuntime) -> io::Result<()> {
    print_page(&rt)
}
