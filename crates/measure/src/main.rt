// Tells of the sheet on standard input how many bytes import or export of it would write, and how many of its lines it would visit:
// `measure import|export [little|big]`; the second word is the order of the metadata's lengths. Prints `length N, lines M` or `refused N`.
#![tactic(auto)]

use outcome::Size;
use refusal::Refusal;
use std::env::Env;
use std::io;
use std::io::Write;

// The conversion that is measured; or nothing.
#[derive(Drop)]
enum Conversion {
    Import,
    Export,
    Nothing,
}

fn named(word: &[u8]) -> Conversion {
    if buffer::same(word, b"import") {
        return Conversion::Import;
    }
    if buffer::same(word, b"export") {
        return Conversion::Export;
    }
    Conversion::Nothing
}

// By the first argument.
fn asked_conversion<E: Env>(env: &E) -> Conversion {
    let mut word = [0u8; streams::LONGEST_WORD];
    let n = streams::argument(env, 1, &mut word);
    named(&word[..n])
}

fn print_measured(rt: &HostRuntime, m: Result<Size, Refusal>) -> io::Result<()> {
    let mut out = rt.stdout();
    match m {
        Err(reason) => {
            print_answer::print_refused(&mut out, &mut rt.stderr(), reason.number())?;
            Ok(())
        }
        Ok(size) => {
            out.write_all(b"length ")?;
            streams::print_decimal(&mut out, size.len as u64)?;
            out.write_all(b", lines ")?;
            streams::print_decimal(&mut out, size.lines as u64)?;
            out.write_all(b"\n")
        }
    }
}

fn measure(rt: &HostRuntime, is_import: bool, big: bool) -> io::Result<()> {
    // One byte more than a sheet may have, so that a longer input is known as such, however long it is.
    let mut sheet = [0u8; streams::SHEET_ROOM];
    let n = streams::read_full(&mut rt.stdin(), &mut sheet)?;
    if is_import {
        print_measured(rt, import_sheet::measure_import(&sheet[..n], big))
    } else {
        print_measured(rt, field_calls::measure_export(&sheet[..n], big))
    }
}

fn complain(rt: &HostRuntime) -> io::Result<()> {
    rt.stderr()
        .write_all(b"usage: measure import|export [little|big]\n")
}

fn main(rt: HostRuntime) -> io::Result<()> {
    let Some(big) = endian_word::order_at(&rt, 2) else {
        return complain(&rt);
    };
    match asked_conversion(&rt) {
        Conversion::Import => measure(&rt, true, big),
        Conversion::Export => measure(&rt, false, big),
        Conversion::Nothing => complain(&rt),
    }
}
