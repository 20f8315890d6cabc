// Reads a field sheet on standard input and prints its schema sheet, or `refused N`: `export [--strict] [little|big]`. A strict export refuses a field with a reserved
// key or a dictionary index of 128 bits, so that what it prints imports to the plain form. The other word is the order of the metadata's lengths.
#![tactic(auto)]

use std::env::Env;
use std::io;
use std::io::Write;

// More than any answer has: 315,276 bytes of export at most (crates/rooms).
const ROOM: usize = 524288;

// A buffer for the answer. Its length is all that is told of it: its bytes are written before they are read.
fn answer_buffer() -> [u8; ROOM] {
    [0; ROOM]
}

// By the first argument.
fn asked_strict<E: Env>(env: &E) -> bool {
    let mut word = [0u8; streams::LONGEST_WORD];
    let n = streams::argument(env, 1, &mut word);
    buffer::same(&word[..n], b"--strict")
}

// The order stands behind that word, if it is there.
fn asked_order<E: Env>(env: &E, strict: bool) -> Option<bool> {
    if strict {
        return endian_word::order_at(env, 2);
    }
    endian_word::order_at(env, 1)
}

fn print_export(rt: &HostRuntime, strict: bool, big: bool) -> io::Result<()> {
    // One byte more than a sheet may have, so that a longer input is known as such, however long it is.
    let mut sheet = [0u8; streams::SHEET_ROOM];
    let n = streams::read_full(&mut rt.stdin(), &mut sheet)?;
    let mut out = answer_buffer();
    let answer = field_calls::export_as(&sheet[..n], strict, big, &mut out);
    print_answer::print_answer(&mut rt.stdout(), &mut rt.stderr(), &out, answer)?;
    Ok(())
}

fn complain(rt: &HostRuntime) -> io::Result<()> {
    rt.stderr()
        .write_all(b"usage: export [--strict] [little|big]\n")
}

fn main(rt: HostRuntime) -> io::Result<()> {
    let strict = asked_strict(&rt);
    match asked_order(&rt, strict) {
        Some(big) => print_export(&rt, strict, big),
        None => complain(&rt),
    }
}
